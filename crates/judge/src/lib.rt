// Which word of a page fails: the lowest sub-word that is no multiple of g_0 or, if all are, the lowest nested word that fails.
#![tactic(auto)]

ghost use Rattle.std.specs.Prelude.{◌≡◌, ◌-◌, ◌<◌, ◌≤◌, ◌^◌, T, eqb, length, get_or};
ghost use Rattle.polynomial.specs.Digits.{value};
ghost use Rattle.code.specs.Calls.{Named, generators};
ghost use Rattle.code.specs.Code.{degree, remainder, nested, failing, failing_nested};
ghost use Rattle.code.specs.Layout.{page_bytes, page_clear, words_of};
ghost use Rattle.code.specs.Parameters.{Accepted};
ghost use Rattle.levels.specs.Ready.{Prepared};
ghost use Rattle.judge.specs.Judged.{Judging, JudgingNested};

use code::{Parameters, Verdict};

// Is the word s, of n places at most, a multiple of level a's generator, whose table is t?
pub fn passes(t: &[u64], s: &[u8], n: usize, p: Parameters, a: usize, w: usize) -> bool
    requires { Accepted p × (a ≤ p.v) × (w ≡ degree p a) × Prepared p a t.now × (n < 4096) × (value 8 s.now < 2 ^ n) }
    ensures { result ≡ eqb (remainder p a (value 8 s.now)) 0 }
{
    let mut r = [0u64; 13];
    levels::remainder_at(&mut r, t, s, n, p, a, w);
    kernels::row::is_zero(&r)
}

// Is sub-word i a multiple of g_0, whose table is t?
fn sub_word_passes(p: Parameters, page: &[u8], i: usize, t: &[u64], w: usize) -> bool
    requires { Judging p page.now t.now w × (i < p.m) }
    ensures { result ≡ eqb (remainder p 0 (get_or (words_of p page.now) i 0)) 0 }
{
    let s = layout::sub_word(p, page, i);
    let n = layout::stored_of(p);
    passes(t, s, n, p, 0, w)
}

// The lowest sub-word that is no multiple of g_0; m if there is none.
fn first_failing(p: Parameters, page: &[u8], t: &[u64], w: usize) -> usize
    requires { Judging p page.now t.now w }
    ensures { result ≡ failing p (words_of p page.now) }
{
    let m = p.m as usize;
    (0..m)
        .find(|&i| !sub_word_passes(p, page, i, t, w))
        .unwrap_or(m)
}

// Is nested word l a multiple of g_(v−l)? The lent table and bytes are room to work in.
fn nested_passes(
    p: Parameters,
    page: &[u8],
    rows: [[u64; 13]; 4],
    l: usize,
    t: &mut [u64],
    acc: &mut [u8],
) -> bool
    requires { JudgingNested p page.now rows t.old acc.old × (l < p.v) }
    ensures { result ≡ eqb (remainder p (p.v - l) (nested p l (words_of p page.now))) 0 }
{
    let a = p.v as usize - l;
    let w = levels::degree_at(p, rows, a) as usize;
    levels::prepare(t, p, rows, a, w);
    nested::nested_into(acc, p, page, l);
    let n = layout::nested_places(p);
    passes(t, acc, n, p, a, w)
}

// The lowest nested word that is no multiple of its generator; v if there is none.
fn first_failing_nested(
    p: Parameters,
    page: &[u8],
    rows: [[u64; 13]; 4],
    t: &mut [u64],
    acc: &mut [u8],
) -> usize
    requires { JudgingNested p page.now rows t.old acc.old }
    ensures { result ≡ failing_nested p (words_of p page.now) }
{
    let v = p.v as usize;
    for l in 0..v {
        if !nested_passes(p, page, rows, l, t, acc) {
            return l;
        }
    }
    v
}

// Judge's answer on a page, by the generators' rows. The array has one word more than the table: so the table stands at a multiple of
// 16 bytes in the frame of the C call, where two words are read at a time, and no read crosses a line of the cache.
pub fn verdict_of(p: Parameters, rows: [[u64; 13]; 4], page: &[u8]) -> Verdict
    requires { Accepted p × (rows ≡ generators p) × (length page.now ≡ page_bytes p) × T (page_clear p page.now) }
    ensures { Named p (words_of p page.now) result }
{
    let w = levels::degree_at(p, rows, 0) as usize;
    let mut table = [0u64; 3073];
    let mut room = [0u8; 520];
    let k = layout::nested_bytes(p) + 8;
    let t = &mut table[..3072];
    levels::prepare(t, p, rows, 0, w);
    let i = first_failing(p, page, t, w);
    if i < p.m as usize {
        return Verdict::SubWord(i);
    }
    let l = first_failing_nested(p, page, rows, t, &mut room[..k]);
    if l < p.v as usize {
        return Verdict::NestedWord(l);
    }
    Verdict::Member
}
