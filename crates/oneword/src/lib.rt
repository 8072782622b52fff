// The calls on one word of a page. Each tests everything: the parameters, the page, the word's number, the length of the lent buffer.
#![tactic(auto)]

ghost use Rattle.code.specs.Calls.{RemainderMade, ShortMade, NestedMade, SyndromesMade, NestedSyndromesMade, AllMade};

use code::{Outcome, Parameters};
use layout::sub_word;
use refusal::{all_refusal, word_refusal};
use word::{all_from, level_remainder, nested_of, odd_from, remainder_into, short_into};

// The remainder of sub-word i by g_0, in 96 bytes.
pub fn remainder(p: Parameters, page: &[u8], i: usize, out: &mut [u8]) -> Outcome
    ensures { RemainderMade p page.now i out.old out.new result }
{
    word_refusal(p, page, i, p.m as usize, out.len(), 96)?;
    let s = sub_word(p, page, i);
    remainder_into(out, p, 0, s);
    Ok(())
}

// The short remainder of nested word l, by g_(v-l) / g_0, in 96 bytes.
pub fn short_remainder(p: Parameters, page: &[u8], l: usize, out: &mut [u8]) -> Outcome
    ensures { ShortMade p page.now l out.old out.new result }
{
    word_refusal(p, page, l, p.v as usize, out.len(), 96)?;
    let s = nested_of(p, page, l);
    short_into(out, p, l, &s);
    Ok(())
}

// Nested word l, in its bytes.
pub fn nested_word(p: Parameters, page: &[u8], l: usize, out: &mut [u8]) -> Outcome
    ensures { NestedMade p page.now l out.old out.new result }
{
    refusal::sheet_refusal(p)?;
    let exact = layout::nested_bytes(p);
    refusal::index_refusal(p, page, l, p.v as usize, out.len(), exact)?;
    let s = nested_of(p, page, l);
    kernels::bytes::copy_down(out, &s, 0);
    Ok(())
}

// The syndromes S_1, S_3, .., t_0 of them, of sub-word i, from its remainder by g_0, which has the roots α to α^(2 t_0).
// The remainder and the syndromes are two calls, so that the tables of both never stand on the stack together.
pub fn syndromes(p: Parameters, page: &[u8], i: usize, list: &mut [u16]) -> Outcome
    ensures { SyndromesMade p page.now i list.old list.new result }
{
    let t = sheet::strength_at(p, 0) as usize;
    word_refusal(p, page, i, p.m as usize, list.len(), t)?;
    let s = sub_word(p, page, i);
    let mut r = [0u64; 13];
    let w = level_remainder(&mut r, p, 0, s);
    odd_from(list, p, &r, w);
    Ok(())
}

// The syndromes S_1, S_3, .., t_(v-l) of them, of nested word l, from its remainder by g_(v-l).
pub fn nested_syndromes(p: Parameters, page: &[u8], l: usize, list: &mut [u16]) -> Outcome
    ensures { NestedSyndromesMade p page.now l list.old list.new result }
{
    let a = layout::level_of(p, l);
    let t = sheet::strength_at(p, a as u32) as usize;
    word_refusal(p, page, l, p.v as usize, list.len(), t)?;
    let s = nested_of(p, page, l);
    let mut r = [0u64; 13];
    let w = level_remainder(&mut r, p, a, &s);
    odd_from(list, p, &r, w);
    Ok(())
}

// The syndromes S_1, S_2, .., 2t of them, of a word of a level, t being that level's strength, from the list of S_1, S_3, .., whatever numbers
// it holds: S_(2j) is the square of S_j.
pub fn all_syndromes(p: Parameters, level: u32, odd: &[u16], list: &mut [u16]) -> Outcome
    ensures { AllMade p level odd.now list.old list.new result }
{
    all_refusal(p, level, odd.len(), list.len())?;
    all_from(list, p, odd);
    Ok(())
}
