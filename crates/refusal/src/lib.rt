// The refusal of every call: the first condition that it meets. Each function tests in the order of its chain.
#![tactic(auto)]

ghost use Rattle.std.specs.Prelude.{◌≡◌, not, ◌&&◌, ◌+◌, ◌^◌, ◌≤◌, eqb, leb, ltb, length};
ghost use Rattle.polynomial.specs.Digits.{value};
ghost use Rattle.code.specs.Answers.{answer_number};
ghost use Rattle.code.specs.Layout.{blocks_full, data_bytes};
ghost use Rattle.code.specs.Parameters.{Accepted, sheet_refusal};
ghost use Rattle.code.specs.Refusals.{bad_count, bad_width, judge_lengths, many_refusal, no_bit, open_refusal, page_refusal, quote_refusal, read_lengths, word_refusal, write_refusal, all_refusal};
ghost use Rattle.layout.specs.Sizes.{Degrees};
ghost use Rattle.refusal.specs.Altering.{bit_refusal};
ghost use Rattle.refusal.specs.Feeding.{numbers_refusal};

use code::{Outcome, Parameters, Refusal};

// For any numbers: 1 to 4, 14.
pub fn sheet_refusal(p: Parameters) -> Outcome
    ensures { answer_number result ≡ sheet_refusal p }
{
    sheet::test(p)?;
    Ok(())
}

// ---- calls on pages

// For accepted parameters: 7 for the length, 8 for a spare bit.
pub fn page_refusal(p: Parameters, page: &[u8]) -> Outcome
    requires { Accepted p }
    ensures { answer_number result ≡ page_refusal p page.now }
{
    if page.len() != layout::page_bytes(p) {
        return Err(Refusal::Page);
    }
    if !layout::page_clear(p, page) {
        return Err(Refusal::Stray);
    }
    Ok(())
}

// Judge and read out look for a blank page between 7 and 8, so their chains stop at the lengths.

// For any numbers, and a page of `page` bytes: 1 to 4, 14, 7.
pub fn judge_lengths(p: Parameters, page: usize) -> Outcome
    ensures { answer_number result ≡ judge_lengths p page }
{
    sheet_refusal(p)?;
    if page != layout::page_bytes(p) {
        return Err(Refusal::Page);
    }
    Ok(())
}

// For accepted parameters, whose degrees are w, a page of `page` bytes and a buffer of `blocks`: 6, 7.
pub fn read_lengths(p: Parameters, w: &[u32], page: usize, blocks: usize) -> Outcome
    requires { Accepted p × Degrees p w.now }
    ensures { answer_number result ≡ read_lengths p page blocks }
{
    if blocks != layout::data_bytes(p, w) {
        return Err(Refusal::Blocks);
    }
    if page != layout::page_bytes(p) {
        return Err(Refusal::Page);
    }
    Ok(())
}

// The width is 1 to 64.
fn width_good(width: u32) -> bool
    ensures { result ≡ not (bad_width width) }
{
    (1..=64).contains(&width)
}

// The page of the blocks would be blank: every data bit is 1. At s > 0 none would.
fn page_ones(p: Parameters, w: &[u32], blocks: &[u8]) -> bool
    requires { Accepted p × Degrees p w.now × (length blocks.now ≡ data_bytes p) }
    ensures { result ≡ (eqb p.s 0 && blocks_full p blocks.now) }
{
    p.s == 0 && layout::blocks_full(p, w, blocks)
}

// For accepted parameters, whose degrees are w, and a buffer of `page` bytes: 5, 6, 7, 8 for an unused bit, 13 where the page
// would be blank.
pub fn write_refusal(p: Parameters, w: &[u32], width: u32, blocks: &[u8], page: usize) -> Outcome
    requires { Accepted p × Degrees p w.now }
    ensures { answer_number result ≡ write_refusal p width blocks.now page }
{
    if !width_good(width) {
        return Err(Refusal::Width);
    }
    if blocks.len() != layout::data_bytes(p, w) {
        return Err(Refusal::Blocks);
    }
    if page != layout::page_bytes(p) {
        return Err(Refusal::Page);
    }
    if !layout::blocks_clear(p, w, blocks) {
        return Err(Refusal::Stray);
    }
    if page_ones(p, w, blocks) {
        return Err(Refusal::Blank);
    }
    Ok(())
}

// 1 to 16 pages.
fn count_good(count: u32) -> bool
    ensures { result ≡ not (bad_count count) }
{
    (1..=16).contains(&count)
}

// For accepted parameters, whose degrees are w, `count` pages, and lengths of blocks, pages and list: 5, 9 for the count, 6,
// 7, 10.
pub fn many_refusal(
    p: Parameters,
    w: &[u32],
    width: u32,
    count: u32,
    blocks: usize,
    pages: usize,
    list: usize,
) -> Outcome
    requires { Accepted p × Degrees p w.now }
    ensures { answer_number result ≡ many_refusal p width count blocks pages list }
{
    if !width_good(width) {
        return Err(Refusal::Width);
    }
    if !count_good(count) {
        return Err(Refusal::Index);
    }
    let c = count as usize;
    if blocks != c * layout::data_bytes(p, w) {
        return Err(Refusal::Blocks);
    }
    if pages != c * layout::page_bytes(p) {
        return Err(Refusal::Page);
    }
    if list != c {
        return Err(Refusal::List);
    }
    Ok(())
}

// ---- alter

// Block i has a bit r, and b is a bit.
fn names_bit(p: Parameters, w: &[u32], i: u32, r: u32, b: u32) -> bool
    requires { Accepted p × Degrees p w.now }
    ensures { result ≡ not (no_bit p i r b) }
{
    i < p.m && (r as usize) < layout::data_bits(p, w, i as usize) && b <= 1
}

// For accepted parameters, whose degrees are w: 7, 8, 9 where no bit is named or b is none. 13 is left: it is of the page
// afterwards.
pub fn bit_refusal(p: Parameters, w: &[u32], page: &[u8], i: u32, r: u32, b: u32) -> Outcome
    requires { Accepted p × Degrees p w.now }
    ensures { answer_number result ≡ bit_refusal p page.now i r b }
{
    page_refusal(p, page)?;
    if !names_bit(p, w, i, r, b) {
        return Err(Refusal::Index);
    }
    Ok(())
}

// ---- calls on one word

// For accepted parameters: 7, 8, 9 where the word i is none of `many`,
// 10 where the lent list's length `out` is not exact.
pub fn index_refusal(
    p: Parameters,
    page: &[u8],
    i: usize,
    many: usize,
    out: usize,
    exact: usize,
) -> Outcome
    requires { Accepted p }
    ensures { answer_number result ≡ word_refusal p page.now i many out exact }
{
    page_refusal(p, page)?;
    if many <= i {
        return Err(Refusal::Index);
    }
    if out != exact {
        return Err(Refusal::List);
    }
    Ok(())
}

// For any numbers: 1 to 4, 14 before these.
pub fn word_refusal(
    p: Parameters,
    page: &[u8],
    i: usize,
    many: usize,
    out: usize,
    exact: usize,
) -> Outcome
    ensures { answer_number result ≡ word_refusal p page.now i many out exact }
{
    sheet_refusal(p)?;
    index_refusal(p, page, i, many, out, exact)
}

// ---- the quote

// For any numbers, and a list of `out`: 1 to 4, 14, 10.
pub fn quote_refusal(p: Parameters, out: usize) -> Outcome
    ensures { answer_number result ≡ quote_refusal 1 p out }
{
    sheet_refusal(p)?;
    if out != 12 {
        return Err(Refusal::List);
    }
    Ok(())
}

// ---- registers

// For any numbers: 1 to 4, 14, 9.
pub fn open_refusal(p: Parameters, level: u32) -> Outcome
    ensures { answer_number result ≡ open_refusal p level }
{
    sheet_refusal(p)?;
    if p.v < level {
        return Err(Refusal::Index);
    }
    Ok(())
}

// For a level, a list of `odd` odd syndromes and one of `out` places for all: 1 to 4, 14, 9, 10.
pub fn all_refusal(p: Parameters, level: u32, odd: usize, out: usize) -> Outcome
    ensures { answer_number result ≡ all_refusal 1 p level odd out }
{
    open_refusal(p, level)?;
    let t = sheet::strength_at(p, level) as usize;
    if odd != t || out != 2 * t {
        return Err(Refusal::List);
    }
    Ok(())
}

// u has no bit at `width` or above.
fn number_fits(u: u64, width: u32) -> bool
    requires { (1 ≤ width) × (width ≤ 64) }
    ensures { result ≡ ltb u (2 ^ width) }
{
    u >> (width - 1) < 2
}

// count + width is not above n. The count may be any number, so the sum is not formed.
fn room(count: u64, width: u64, n: u64) -> bool
    ensures { result ≡ leb (count + width) n }
{
    count <= n && width <= n - count
}

// For accepted parameters, u as `width` coefficients after `count` at a level: 5, 8, 11, 12 for the level.
pub fn numbers_refusal(p: Parameters, width: u32, level: u32, count: u64, u: u64) -> Outcome
    requires { Accepted p }
    ensures { answer_number result ≡ numbers_refusal p width level count u }
{
    if !width_good(width) {
        return Err(Refusal::Width);
    }
    if !number_fits(u, width) {
        return Err(Refusal::Stray);
    }
    let n = layout::full_count(p);
    if !room(count, width as u64, n) {
        return Err(Refusal::Full);
    }
    if p.v < level {
        return Err(Refusal::Register);
    }
    Ok(())
}

// The words have no bit at w or above.
pub fn remainder_fits(words: &[u64], w: usize) -> bool
    ensures { result ≡ ltb (value 64 words.now) (2 ^ w) }
{
    let k = w / 64;
    if words.len() <= k {
        return true;
    }
    words[k] >> (w % 64) == 0 && kernels::row::is_zero(&words[k + 1..])
}
