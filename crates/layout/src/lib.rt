// Lengths of pages and blocks, a page's sub-words, and the tests of their bits: none stray, or all 1.
#![tactic(auto)]

ghost use Rattle.std.specs.Prelude.{◌≡◌, ◌+◌, ◌-◌, ◌*◌, ◌/◌, ◌%◌, ◌^◌, ◌≤◌, ◌<◌, length, take, drop};
ghost use Rattle.polynomial.specs.Digits.{value};
ghost use Rattle.polynomial.specs.Xor.{xor};
ghost use Rattle.code.specs.Parameters.{Accepted, len, stored, sub_word_bytes, nested_bytes, full};
ghost use Rattle.code.specs.Code.{level, check_bits};
ghost use Rattle.code.specs.Layout.{page_bytes, data_bits, data_bytes, block_offset, block_bits, blocks_of, blocks_clear, blocks_full, words_of, page_clear, blank};
ghost use Rattle.code.specs.Lists.{each, fits_in, ones_in};
ghost use Rattle.layout.specs.Sizes.{Degrees, nested_places};
ghost use Rattle.layout.specs.Runs.{OnesFound, run_passes};
ghost use Rattle.layout.specs.Tested.{AnswersRuns, RunIn, ServesRuns, word_bits};

use code::Parameters;
use element::Field;

// ---- lengths

// The cyclic length n: the places of a nested word.
pub fn length_of(p: Parameters) -> usize
    requires { Accepted p }
    ensures { result ≡ len p }
{
    let f = Field::of(p.q);
    f.order as usize
}

// The coefficients of a sub-word that are stored: all but the top s.
pub fn stored_of(p: Parameters) -> usize
    requires { Accepted p }
    ensures { result ≡ stored p }
{
    length_of(p) - p.s as usize
}

// The bytes of a sub-word in a page.
pub fn sub_word_bytes(p: Parameters) -> usize
    requires { Accepted p }
    ensures { result ≡ sub_word_bytes p }
{
    stored_of(p).div_ceil(8)
}

// The bytes of a nested word.
pub fn nested_bytes(p: Parameters) -> usize
    requires { Accepted p }
    ensures { result ≡ nested_bytes p }
{
    let f = Field::of(p.q);
    f.size as usize / 8
}

// The places of a nested word that can be other than 0: sub-words are moved up by at most 14 places.
pub fn nested_places(p: Parameters) -> usize
    requires { Accepted p }
    ensures { result ≡ nested_places p }
{
    let n = length_of(p);
    let k = 8 * sub_word_bytes(p) + 14;
    n.min(k)
}

// The count at which a register is full.
pub fn full_count(p: Parameters) -> u64
    requires { Accepted p }
    ensures { result ≡ full p }
{
    stored_of(p) as u64
}

// The bytes of a page.
pub fn page_bytes(p: Parameters) -> usize
    requires { Accepted p }
    ensures { result ≡ page_bytes p }
{
    let b = sub_word_bytes(p);
    p.m as usize * b
}

// The level of sub-word i: v - i, and 0 from i = v on.
pub fn level_of(p: Parameters, i: usize) -> usize
    ensures { result ≡ level p i }
{
    let v = p.v as usize;
    if i < v { v - i } else { 0 }
}

// The check bits of sub-word i; w holds the degrees of the generators.
pub fn check_bits(p: Parameters, w: &[u32], i: usize) -> usize
    requires { Accepted p × Degrees p w.now }
    ensures { result ≡ check_bits p i }
{
    let a = level_of(p, i);
    w[a] as usize
}

// The data bits of sub-word i.
pub fn data_bits(p: Parameters, w: &[u32], i: usize) -> usize
    requires { Accepted p × Degrees p w.now }
    ensures { result ≡ data_bits p i }
{
    let n = stored_of(p);
    let k = check_bits(p, w, i);
    n - k
}

// The bytes of block i.
pub fn block_size(p: Parameters, w: &[u32], i: usize) -> usize
    requires { Accepted p × Degrees p w.now }
    ensures { result ≡ (data_bits p i + 7) / 8 }
{
    data_bits(p, w, i).div_ceil(8)
}

// Where block i begins.
pub fn block_offset(p: Parameters, w: &[u32], i: usize) -> usize
    requires { Accepted p × Degrees p w.now × (i ≤ p.m) }
    ensures { result ≡ block_offset p i }
{
    let mut at = 0;
    for j in 0..i {
        at += block_size(p, w, j);
    }
    at
}

// The bytes of all blocks.
pub fn data_bytes(p: Parameters, w: &[u32]) -> usize
    requires { Accepted p × Degrees p w.now }
    ensures { result ≡ data_bytes p }
{
    block_offset(p, w, p.m as usize)
}

// ---- sub-words

// The bytes of sub-word i.
pub fn sub_word(p: Parameters, page: &[u8], i: usize) -> &[u8]
    requires { Accepted p × (length page.now ≡ page_bytes p) × (i < p.m) }
    ensures { result.now ≡ take (sub_word_bytes p) (drop (i * sub_word_bytes p) page.now) }
{
    let b = sub_word_bytes(p);
    let at = i * b;
    let end = at + b;
    &page[at..end]
}

// x^e is added: the coefficient of x^e is flipped.
pub fn flip(s: &mut [u8], e: usize)
    requires { e < 8 * length s.old }
    ensures { value 8 s.new ≡ xor (value 8 s.old) (2 ^ e) }
{
    let v: u64 = 1 << (e % 8);
    kernels::bytes::add_bytes(s, e / 8, v);
}

// ---- bits of runs: a run is as many bytes as b bits take

// 2^k.
fn two_to(k: usize) -> usize
    requires { k < 64 }
    ensures { result ≡ 2 ^ k }
{
    1 << k
}

// What the last byte of a run is below: 2 to its bits among the b.
fn last_bound(size: usize, b: usize) -> usize
    requires { (1 ≤ b) × (b < 4096) × (size ≡ (b + 7) / 8) }
    ensures { result ≡ 2 ^ (8 - (8 * size - b)) }
{
    let unused = 8 * size - b;
    two_to(8 - unused)
}

// The run of bytes at `at` is below 2^b as a number: of its last byte no unused bit is 1.
fn run_clear(bytes: &[u8], at: usize, size: usize, b: usize) -> bool
    requires { RunIn bytes.now at size b }
    ensures { result ≡ run_passes fits_in bytes.now at size b }
{
    let bound = last_bound(size, b);
    let last = at + size - 1;
    let top = bytes[last] as usize;
    top < bound
}

// The 8 × count bytes from `at` on are all 255, a word at a time.
fn words_ones(bytes: &[u8], at: usize, count: usize) -> bool
    requires { at + 8 * count ≤ length bytes.now }
    ensures { OnesFound bytes.now at (at + 8 * count) result }
{
    (0..count).all(|k| kernels::bits::word_in(bytes, at + 8 * k) == u64::MAX)
}

// The bytes from `at` on, up to `end`, are all 255, one by one.
fn bytes_ones(bytes: &[u8], at: usize, end: usize) -> bool
    requires { (at ≤ end) × (end ≤ length bytes.now) }
    ensures { OnesFound bytes.now at end result }
{
    bytes[at..end].iter().all(|b| *b == 255)
}

// The same, by words as far as these go.
fn range_ones(bytes: &[u8], at: usize, end: usize) -> bool
    requires { (at ≤ end) × (end ≤ length bytes.now) }
    ensures { OnesFound bytes.now at end result }
{
    let count = (end - at) / 8;
    words_ones(bytes, at, count) && bytes_ones(bytes, at + 8 * count, end)
}

// The b lowest bits of the run of bytes at `at` are all 1, whatever its unused bits.
fn run_ones(bytes: &[u8], at: usize, size: usize, b: usize) -> bool
    requires { RunIn bytes.now at size b }
    ensures { result ≡ run_passes ones_in bytes.now at size b }
{
    let last = at + size - 1;
    let bound = last_bound(size, b);
    let high = bytes[last] as usize;
    range_ones(bytes, at, last) && high % bound == bound - 1
}

// The test of a run is a parameter of the next two: run_clear or run_ones. P is what it says of the run's number.

// Every sub-word of the page passes the test.
fn words_pass<T: Fn(&[u8], usize, usize, usize) -> bool>(
    p: Parameters,
    page: &[u8],
    test: T,
) -> bool
    requires lengths { Accepted p × (length page.now ≡ page_bytes p) }
    requires callable { ServesRuns (T.pre test) page.now }
    ensures { (P : _) → AnswersRuns (T.post test) P page.now → result ≡ each P (word_bits p) (words_of p page.now) }
{
    let n = stored_of(p);
    let b = sub_word_bytes(p);
    (0..p.m as usize).all(|i| test(page, i * b, b, n))
}

// Every block passes the test.
fn blocks_pass<T: Fn(&[u8], usize, usize, usize) -> bool>(
    p: Parameters,
    w: &[u32],
    blocks: &[u8],
    test: T,
) -> bool
    requires lengths { Accepted p × Degrees p w.now × (length blocks.now ≡ data_bytes p) }
    requires callable { ServesRuns (T.pre test) blocks.now }
    ensures { (P : _) → AnswersRuns (T.post test) P blocks.now → result ≡ each P (block_bits p) (blocks_of p blocks.now) }
{
    let mut at = 0;
    for j in 0..p.m as usize {
        let b = data_bits(p, w, j);
        let size = block_size(p, w, j);
        if !test(blocks, at, size, b) {
            return false;
        }
        at += size;
    }
    true
}

// No spare bit of the page is 1.
pub fn page_clear(p: Parameters, page: &[u8]) -> bool
    requires { Accepted p × (length page.now ≡ page_bytes p) }
    ensures { result ≡ page_clear p page.now }
{
    words_pass(p, page, run_clear)
}

// Every stored coefficient of the page is 1, whatever its spare bits.
pub fn page_blank(p: Parameters, page: &[u8]) -> bool
    requires { Accepted p × (length page.now ≡ page_bytes p) }
    ensures { result ≡ blank p page.now }
{
    words_pass(p, page, run_ones)
}

// No unused bit of the blocks is 1.
pub fn blocks_clear(p: Parameters, w: &[u32], blocks: &[u8]) -> bool
    requires { Accepted p × Degrees p w.now × (length blocks.now ≡ data_bytes p) }
    ensures { result ≡ blocks_clear p blocks.now }
{
    blocks_pass(p, w, blocks, run_clear)
}

// Every data bit of the blocks is 1.
pub fn blocks_full(p: Parameters, w: &[u32], blocks: &[u8]) -> bool
    requires { Accepted p × Degrees p w.now × (length blocks.now ≡ data_bytes p) }
    ensures { result ≡ blocks_full p blocks.now }
{
    blocks_pass(p, w, blocks, run_ones)
}

// The bits of a run above its b lowest are cleared.
pub fn clear_above(run: &mut [u8], b: usize)
    requires { (1 ≤ b) × (b < 4096) × (length run.old ≡ (b + 7) / 8) }
    ensures { value 8 run.new ≡ value 8 run.old % 2 ^ b }
{
    let size = run.len();
    let bound = last_bound(size, b);
    let last = size - 1;
    let kept = run[last] as usize % bound;
    run[last] = kept as u8;
}
