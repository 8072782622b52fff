// One bit altered in a stored page: the page of that single bit (unit) is added. The sum with the lent page is formed in a room of its own,
// so that 13 is known before a byte of that page changes.
#![tactic(auto)]

ghost use Rattle.std.specs.Prelude.{◌≡◌, ◌+◌, ◌*◌, ◌/◌, ◌^◌, ◌≤◌, ◌<◌, T, length, get_or};
ghost use Rattle.polynomial.specs.Digits.{value};
ghost use Rattle.polynomial.specs.Xor.{xor};
ghost use Rattle.code.specs.Alter.{Alterable};
ghost use Rattle.code.specs.Calls.{Altered, generators};
ghost use Rattle.code.specs.Layout.{blank, coefficient_of, data_bits, one_bit, page_bytes, page_clear, page_of, words_of};
ghost use Rattle.code.specs.Parameters.{Accepted, stored, sub_word_bytes};
ghost use Rattle.layout.specs.Sizes.{Degrees};
ghost use Rattle.layout.specs.Written.{written};
ghost use Rattle.alter.specs.Spread.{Adding, Spread};
ghost use Rattle.alter.specs.Sum.{Added, unless_blank};

use code::{Outcome, Parameters, Refusal};

// ---- sums

// Sub-word k of a page of the sheet q is added to that of a page of p, which is no shorter.
fn add_word(p: Parameters, sum: &mut [u8], q: Parameters, short: &[u8], k: usize)
    requires { Accepted p × (length sum.old ≡ page_bytes p) × Accepted q × (length short.now ≡ page_bytes q)
        × (q.m ≡ p.m) × (sub_word_bytes q ≤ sub_word_bytes p) × (k < p.m) }
    ensures { sum.new ≡ written p sum.old k
        (xor (get_or (words_of p sum.old) k 0) (get_or (words_of q short.now) k 0)) }
{
    let b = layout::sub_word_bytes(p);
    let x = layout::sub_word(q, short, k);
    let at = k * b;
    let end = at + b;
    kernels::bytes::add_up(&mut sum[at..end], x, 0);
}

// All of them.
fn add_words(p: Parameters, sum: &mut [u8], q: Parameters, short: &[u8])
    requires { Accepted p × (length sum.old ≡ page_bytes p) × Accepted q × (length short.now ≡ page_bytes q)
        × (q.m ≡ p.m) × (sub_word_bytes q ≤ sub_word_bytes p) }
    ensures { Spread p sum.old (words_of q short.now) p.m sum.new }
{
    for k in 0..p.m as usize {
        add_word(p, sum, q, short, k);
    }
}

// x^e and y are added to a sub-word.
fn add_both(part: &mut [u8], y: &[u8], e: usize)
    requires { (e < 8 * length part.old) × (length part.old < 1000) × (value 8 y.now < 2 ^ (8 * length part.old)) }
    ensures { value 8 part.new ≡ xor (xor (value 8 part.old) (value 8 y.now)) (2 ^ e) }
{
    kernels::bytes::add_up(part, y, 0);
    layout::flip(part, e);
}

// The same in sub-word i of the page.
fn add_at(p: Parameters, sum: &mut [u8], i: usize, y: &[u8], e: usize)
    requires { Accepted p × (length sum.old ≡ page_bytes p) × (i < p.m) × (e < stored p) × (value 8 y.now < 2 ^ stored p) }
    ensures { sum.new ≡ written p sum.old i
        (xor (xor (get_or (words_of p sum.old) i 0) (value 8 y.now)) (2 ^ e)) }
{
    let b = layout::sub_word_bytes(p);
    let at = i * b;
    let end = at + b;
    add_both(&mut sum[at..end], y, e);
}

// ---- the lent page

// The coefficient of x^k of sub-word i.
fn coefficient_at(p: Parameters, page: &[u8], i: usize, k: usize) -> u8
    requires { Accepted p × (length page.now ≡ page_bytes p) × (i < p.m) × (k < 8 * sub_word_bytes p) }
    ensures { result ≡ coefficient_of p page.now i k }
{
    let b = layout::sub_word_bytes(p);
    let at = i * b + k / 8;
    (page[at] >> (k % 8)) % 2
}

// The page is left as it is: 13 if it is blank.
fn keep(p: Parameters, page: &[u8]) -> Outcome
    requires { Accepted p × (length page.now ≡ page_bytes p) }
    ensures { result ≡ unless_blank (blank p page.now) }
{
    if layout::page_blank(p, page) {
        return Err(Refusal::Blank);
    }
    Ok(())
}

// The page of bit r of block i is added to the page, unless the sum is blank: then 13, and the page is left as it is. e is the bit's place, y
// the remainder of x^e by g_v, and short the page of y's data in block i, of the shortest sheet q.
fn add_short(
    p: Parameters,
    page: &mut [u8],
    i: usize,
    r: usize,
    e: usize,
    y: &[u8],
    q: Parameters,
    short: &[u8],
) -> Outcome
    requires { Adding p i r e page.old y.now q short.now }
    ensures { Added p page.old (page_of p (one_bit p i r)) page.new result }
{
    let mut room = [0u8; 4096];
    let n = page.len();
    let sum = &mut room[..n];
    kernels::bytes::copy_up(sum, page, 0);
    add_at(p, sum, i, y, e);
    add_words(p, sum, q, short);
    if layout::page_blank(p, sum) {
        return Err(Refusal::Blank);
    }
    kernels::bytes::copy_up(page, sum, 0);
    Ok(())
}

// The same with all that it needs worked out first, so that no table is kept while the sum is formed.
fn add_bit(
    p: Parameters,
    rows: [[u64; 13]; 4],
    w: &[u32],
    page: &mut [u8],
    i: usize,
    r: usize,
) -> Outcome
    requires { Accepted p × (rows ≡ generators p) × Degrees p w.now × (length page.old ≡ page_bytes p) × T (page_clear p page.old)
        × (i < p.m) × (r < data_bits p i) }
    ensures { Added p page.old (page_of p (one_bit p i r)) page.new result }
{
    let mut y = [0u8; 96];
    let q = unit::shortest_of(p, w);
    let mut room = [0u8; 776];
    let n = layout::page_bytes(q);
    let short = &mut room[..n];
    unit::work_out(p, rows, w, i, r, &mut y, q, short);
    let e = layout::check_bits(p, w, i) + r;
    add_short(p, page, i, r, e, &y, q, short)
}

// Bit r of block i made b, in a page that is lent as it must be.
fn alter_named(
    p: Parameters,
    rows: [[u64; 13]; 4],
    w: &[u32],
    page: &mut [u8],
    i: usize,
    r: usize,
    b: u32,
) -> Outcome
    requires { Accepted p × (rows ≡ generators p) × Degrees p w.now × Alterable p page.old i r b }
    ensures { Altered p page.old i r b page.new result }
{
    let k = layout::check_bits(p, w, i) + r;
    if coefficient_at(p, page, i, k) as u32 == b {
        return keep(p, page);
    }
    add_bit(p, rows, w, page, i, r)
}

// Alter, for accepted parameters.
fn alter_accepted(p: Parameters, page: &mut [u8], block: u32, bit: u32, value: u32) -> Outcome
    requires { Accepted p }
    ensures { Altered p page.old block bit value page.new result }
{
    let rows = levels::rows(p);
    let w = levels::degrees(p, rows);
    refusal::bit_refusal(p, &w, page, block, bit, value)?;
    alter_named(p, rows, &w, page, block as usize, bit as usize, value)
}

// Bit `bit` of block `block` is made `value` in the page, member or not: as it is where it has that value, else with the page of this single
// bit added, so that a member becomes the page of its altered blocks.
pub fn alter(p: Parameters, page: &mut [u8], block: u32, bit: u32, value: u32) -> Outcome
    ensures { Altered p page.old block bit value page.new result }
{
    refusal::sheet_refusal(p)?;
    alter_accepted(p, page, block, bit, value)
}
