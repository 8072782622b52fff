// Nested words: sums of sub-words moved up.
#![tactic(auto)]

ghost use Rattle.std.specs.Prelude.{◌≡◌, ◌+◌, ◌^◌, ◌<◌, length};
ghost use Rattle.polynomial.specs.Digits.{value};
ghost use Rattle.code.specs.Code.{nested};
ghost use Rattle.code.specs.Layout.{page_bytes, words_of};
ghost use Rattle.code.specs.Parameters.{Accepted, nested_bytes, sub_word_bytes};
ghost use Rattle.layout.specs.Sizes.{nested_places};
ghost use Rattle.nested.specs.Turned.{Summed};

use code::Parameters;
use layout::{length_of, sub_word, sub_word_bytes};

// Sub-word i moved up by l × i places, all added up. acc has 8 bytes more than a sub-word.
fn sum_into(acc: &mut [u8], p: Parameters, page: &[u8], l: usize)
    requires { Accepted p × (length page.now ≡ page_bytes p) × (l < p.v) × (length acc.old ≡ sub_word_bytes p + 8) }
    ensures { Summed p l page.now (value 8 acc.new) }
{
    let first = sub_word(p, page, 0);
    kernels::bytes::copy_up(acc, first, 0);
    for i in 1..p.m as usize {
        let x = sub_word(p, page, i);
        kernels::bytes::add_up(acc, x, l * i);
    }
}

// Nested word l of the page: the sum folded modulo x^n + 1. acc has 8 bytes above the nested word, which end as 0.
pub fn nested_into(acc: &mut [u8], p: Parameters, page: &[u8], l: usize)
    requires { Accepted p × (length page.now ≡ page_bytes p) × (l < p.v) × (length acc.old ≡ nested_bytes p + 8) }
    ensures { (value 8 acc.new ≡ nested p l (words_of p page.now)) × (value 8 acc.new < 2 ^ nested_places p) }
{
    let n = length_of(p);
    let k = sub_word_bytes(p) + 8;
    sum_into(&mut acc[..k], p, page, l);
    kernels::bytes::clear_bytes(acc, k);
    kernels::bytes::fold_cyclic(acc, n);
}
