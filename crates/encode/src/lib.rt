// The sub-words of a page from their blocks: data above, check bits below; what later sub-words add to the rule of an earlier one.
#![tactic(auto)]

ghost use Rattle.std.specs.Prelude.{◌≡◌, suc, ◌+◌, ◌*◌, ◌%◌, ◌^◌, ◌≤◌, ◌<◌, length, drop};
ghost use Rattle.polynomial.specs.Digits.{value};
ghost use Rattle.polynomial.specs.Xor.{xor};
ghost use Rattle.code.specs.Code.{N, carried, check_bits, combine, degree, level, remainder};
ghost use Rattle.code.specs.Layout.{data_bits, page_bytes, words_of};
ghost use Rattle.code.specs.Parameters.{Accepted};
ghost use Rattle.encode.specs.Carried.{room_bytes};
ghost use Rattle.encode.specs.Horner.{Over, Sums};
ghost use Rattle.encode.specs.Loaded.{Loaded};
ghost use Rattle.encode.specs.Page.{Encoded, Span};
ghost use Rattle.kernels.specs.Value.{Bounded};
ghost use Rattle.layout.specs.Written.{written};
ghost use Rattle.encode.specs.Encoding.{Putting, Writing, word_alone, word_from, word_of};

use code::Parameters;
use kernels::row::Row;

// The room in which a rule is summed: whole words, with 8 bytes above a sub-word.
pub fn room_bytes(p: Parameters) -> usize
    requires { Accepted p }
    ensures { result ≡ room_bytes p }
{
    layout::sub_word_bytes(p).next_multiple_of(8) + 8
}

// ---- what later sub-words add

// b and c are raised over a: of sums up to i = 1 only b, at i = 0 neither.
fn raise_over(a: &[u8], b: &mut [u8], c: &mut [u8], i: usize)
    requires { (length a.now % 8 ≡ 0) × (length b.old ≡ length a.now) × (length c.old ≡ length a.now) }
    ensures { Over i (8 * length a.now) (value 8 a.now) (value 8 b.old) (value 8 c.old)
        (value 8 b.new) (value 8 c.new) }
{
    if i == 0 {
        return;
    }
    kernels::bytes::raise(b, a, 1);
    if i == 1 {
        return;
    }
    kernels::bytes::raise(c, b, 2);
}

// The sub-words after i, the last first, are taken into sums by Horner's rule; a, b and c are 0 before.
fn take_later(a: &mut [u8], b: &mut [u8], c: &mut [u8], p: Parameters, page: &[u8], i: usize)
    requires { Accepted p × (length page.now ≡ page_bytes p) × (i < p.v) × (length a.old % 8 ≡ 0) × (length a.old < 8192)
        × (length b.old ≡ length a.old) × (length c.old ≡ length a.old)
        × (value 8 a.old ≡ 0) × (value 8 b.old ≡ 0) × (value 8 c.old ≡ 0) }
    ensures { Sums i (8 * length a.old) (drop (suc i) (words_of p page.now))
        (value 8 a.new) (value 8 b.new) (value 8 c.new) }
{
    for k in (i + 1..p.m as usize).rev() {
        let x = layout::sub_word(p, page, k);
        kernels::bytes::add_up(a, x, 0);
        raise_over(a, b, c, i);
    }
}

// The sums that were taken are added into acc, each at its power of x.
fn add_sums(acc: &mut [u8], p: Parameters, page: &[u8], i: usize, a: &[u8], b: &[u8], c: &[u8])
    requires { Accepted p × (length page.now ≡ page_bytes p) × (i < p.v)
        × (length acc.old ≡ room_bytes p) × (length a.now ≡ room_bytes p)
        × Sums i (8 * length a.now) (drop (suc i) (words_of p page.now)) (value 8 a.now) (value 8 b.now) (value 8 c.now) }
    ensures { value 8 acc.new ≡ xor (value 8 acc.old)
        (combine (λ k. N k i) (suc i) (drop (suc i) (words_of p page.now))) }
{
    kernels::bytes::add_up(acc, a, 0);
    if i == 0 {
        return;
    }
    kernels::bytes::add_up(acc, b, 1);
    if i == 1 {
        return;
    }
    kernels::bytes::add_up(acc, c, 2);
}

// What the sub-words after i add to the rule of sub-word i is added into acc: N(k, i) × sub-word k, k above i.
fn add_carried(acc: &mut [u8], p: Parameters, page: &[u8], i: usize)
    requires { Accepted p × (length page.now ≡ page_bytes p) × (i < p.v) × (length acc.old ≡ room_bytes p) }
    ensures { value 8 acc.new ≡ xor (value 8 acc.old)
        (combine (λ k. N k i) (suc i) (drop (suc i) (words_of p page.now))) }
{
    let mut r0 = [0u8; 520];
    let mut r1 = [0u8; 520];
    let mut r2 = [0u8; 520];
    let n = room_bytes(p);
    let a = &mut r0[..n];
    let b = &mut r1[..n];
    let c = &mut r2[..n];
    take_later(a, b, c, p, page, i);
    add_sums(acc, p, page, i, a, b, c);
}

// ---- one sub-word

// The data s in their places, from x^bits on, and 0 below and above.
fn place(part: &mut [u8], s: &[u8], bits: usize)
    requires { (bits < 8192) × (length part.old < 1000) × (value 8 s.now * 2 ^ bits < 2 ^ (8 * length part.old)) }
    ensures { value 8 part.new ≡ value 8 s.now * 2 ^ bits }
{
    kernels::bytes::copy_up(part, s, bits);
}

// The remainder of acc by level a's generator, of degree w, whose table is t: `width` coefficients a step with hex digits, 64 with bytes.
pub fn check_of(r: &mut Row, t: &[u64], acc: &[u8], p: Parameters, a: usize, w: usize, width: usize)
    requires { Accepted p × (a ≤ p.v) × (w ≡ degree p a) × Loaded p a t.now × (length acc.now < 1000)
        × (1 ≤ width) × (width ≤ 64) }
    ensures { (value 64 r.new ≡ remainder p a (value 8 acc.now)) × Bounded 64 r.new }
{
    if t.len() == 3072 {
        reduction::remainder::remainder_of(r, t, acc, 8 * acc.len(), width, 768 - w);
    } else {
        bytewise::remainder_of(r, t, acc, w);
    }
}

// The data s over their own check bits by level a: the remainder is that of the part itself.
fn put_alone(
    part: &mut [u8],
    s: &[u8],
    bits: usize,
    t: &[u64],
    p: Parameters,
    a: usize,
    width: usize,
)
    requires { Accepted p × (a ≤ p.v) × (bits ≡ degree p a) × Loaded p a t.now × (bits ≤ 8 * length part.old) × (length part.old < 1000)
        × (value 8 s.now * 2 ^ bits < 2 ^ (8 * length part.old)) × (1 ≤ width) × (width ≤ 64) }
    ensures { value 8 part.new ≡ value 8 s.now * 2 ^ bits + remainder p a (value 8 s.now * 2 ^ bits) }
{
    place(part, s, bits);
    let mut r = [0u64; 13];
    check_of(&mut r, t, part, p, a, bits, width);
    kernels::bytes::store_low(part, &r, bits);
}

// Sub-word i of the page from its data s alone, as if the later sub-words were 0; t is the table of its level.
pub fn write_alone(
    p: Parameters,
    w: &[u32],
    s: &[u8],
    page: &mut [u8],
    i: usize,
    width: usize,
    t: &[u64],
)
    requires { Putting p w.now page.old width × (i < p.m) × Loaded p (level p i) t.now × (value 8 s.now < 2 ^ data_bits p i) }
    ensures { page.new ≡ written p page.old i (word_alone p (value 8 s.now) i) }
{
    let bits = layout::check_bits(p, w, i);
    let a = layout::level_of(p, i);
    let k = layout::sub_word_bytes(p);
    let start = i * k;
    let end = start + k;
    put_alone(&mut page[start..end], s, bits, t, p, a, width);
}

// Block i's data s in their places, and what the later sub-words add to the rule of sub-word i.
fn ruled_into(acc: &mut [u8], p: Parameters, page: &[u8], i: usize, s: &[u8], bits: usize)
    requires { Accepted p × (length page.now ≡ page_bytes p) × (i < p.v) × (bits ≡ check_bits p i)
        × (length acc.old ≡ room_bytes p) × (value 8 s.now < 2 ^ data_bits p i) }
    ensures { value 8 acc.new ≡ xor (value 8 s.now * 2 ^ check_bits p i)
        (carried (level p i) i (drop (suc i) (words_of p page.now))) }
{
    place(acc, s, bits);
    add_carried(acc, p, page, i);
}

// The data s moved up over their check bits r.
fn put_sub_word(part: &mut [u8], s: &[u8], bits: usize, r: &Row)
    requires { (bits ≤ 768) × (bits ≤ 8 * length part.old) × (length part.old < 1000)
        × (value 64 r.now < 2 ^ bits) × (value 8 s.now * 2 ^ bits < 2 ^ (8 * length part.old)) }
    ensures { value 8 part.new ≡ value 8 s.now * 2 ^ bits + value 64 r.now }
{
    place(part, s, bits);
    kernels::bytes::store_low(part, r, bits);
}

// Sub-word i of the page, before the last ones, from its data s and the later sub-words; t is the table of its level, acc room to work in.
pub fn write_early(
    p: Parameters,
    w: &[u32],
    s: &[u8],
    page: &mut [u8],
    i: usize,
    width: usize,
    t: &[u64],
    acc: &mut [u8],
)
    requires { Putting p w.now page.old width × (i < p.m) × Loaded p (level p i) t.now × (value 8 s.now < 2 ^ data_bits p i)
        × (i < p.v) × (length acc.old ≡ room_bytes p) }
    ensures { page.new ≡ written p page.old i (word_from p (value 8 s.now) page.old i) }
{
    let bits = layout::check_bits(p, w, i);
    ruled_into(acc, p, page, i, s, bits);
    let a = layout::level_of(p, i);
    let mut r = [0u64; 13];
    check_of(&mut r, t, acc, p, a, bits, width);
    let k = layout::sub_word_bytes(p);
    let start = i * k;
    let end = start + k;
    put_sub_word(&mut page[start..end], s, bits, &r);
}

// Sub-word i of the page, from its block and the later sub-words; t is the table of its level, acc room to work in.
fn write_word(
    p: Parameters,
    w: &[u32],
    blocks: &[u8],
    page: &mut [u8],
    i: usize,
    width: usize,
    t: &[u64],
    acc: &mut [u8],
)
    requires { Writing p w.now blocks.now page.old width acc.old × (i < p.m) × Loaded p (level p i) t.now }
    ensures { page.new ≡ written p page.old i (word_of p blocks.now page.old i) }
{
    let at = layout::block_offset(p, w, i);
    let size = layout::block_size(p, w, i);
    let stop = at + size;
    let s = &blocks[at..stop];
    if p.v as usize <= i {
        write_alone(p, w, s, page, i, width, t);
    } else {
        write_early(p, w, s, page, i, width, t, acc);
    }
}

// ---- a run of sub-words

// Sub-words `from` - 1 down to `to` of the page, whose later ones are written; t is the table of the level of each.
pub fn write_span(
    p: Parameters,
    w: &[u32],
    blocks: &[u8],
    page: &mut [u8],
    from: usize,
    to: usize,
    width: usize,
    t: &[u64],
    acc: &mut [u8],
)
    requires { Writing p w.now blocks.now page.old width acc.old × Span p t.now to from × Encoded p blocks.now from page.old }
    ensures { Encoded p blocks.now to page.new }
{
    for i in (to..from).rev() {
        write_word(p, w, blocks, page, i, width, t, acc);
    }
}
