// The work on one word of a page, for accepted parameters. A word is a polynomial in bytes s, below x^n.
#![tactic(auto)]

ghost use Rattle.std.specs.Prelude.{◌≡◌, ◌*◌, ◌^◌, ◌≤◌, ◌<◌, min, length};
ghost use Rattle.polynomial.specs.Digits.{value, digits};
ghost use Rattle.polynomial.specs.Division.{deg, rem};
ghost use Rattle.code.specs.Calls.{nested_of};
ghost use Rattle.code.specs.Code.{all_syndromes, degree, divisor, odd_syndromes, remainder};
ghost use Rattle.code.specs.Layout.{IsPage};
ghost use Rattle.code.specs.Parameters.{Accepted, len};
ghost use Rattle.kernels.specs.Value.{Bounded};
ghost use Rattle.word.specs.WordBytes.{WordIs};

use crate::divide::{quotient, remainder_by};
use code::Parameters;
use element::Field;
use kernels::row::Row;

mod divide; // remainders and quotients by any row

// Nested word l of a page, in its bytes with zeros after them.
pub fn nested_of(p: Parameters, page: &[u8], l: usize) -> [u8; 520]
    requires { Accepted p × IsPage p page.now × (l < p.v) }
    ensures { WordIs p (nested_of p page.now l) result }
{
    let end = layout::nested_bytes(p) + 8;
    let mut acc = [0u8; 520];
    nested::nested_into(&mut acc[..end], p, page, l);
    acc
}

// The places of a word below x^n that stands in so many bytes.
fn places_in(p: Parameters, bytes: usize) -> usize
    requires { Accepted p }
    ensures { result ≡ min (len p) (8 * bytes) }
{
    layout::length_of(p).min(bytes.saturating_mul(8))
}

// The remainder of s by level a's generator, and that generator's degree.
pub fn level_remainder(r: &mut Row, p: Parameters, a: usize, s: &[u8]) -> usize
    requires { Accepted p × (a ≤ p.v) × (value 8 s.now < 2 ^ len p) }
    ensures { (result ≡ degree p a) × (value 64 r.new ≡ remainder p a (value 8 s.now)) × Bounded 64 r.new }
{
    let rows = levels::rows(p);
    let w = levels::degree_at(p, rows, a) as usize;
    let g = rows[a];
    let n = places_in(p, s.len());
    remainder_by(r, &g, w, s, n);
    w
}

// The remainder of s by level a's generator, in 96 bytes.
pub fn remainder_into(out: &mut [u8], p: Parameters, a: usize, s: &[u8])
    requires { Accepted p × (a ≤ p.v) × (length out.old ≡ 96) × (value 8 s.now < 2 ^ len p) }
    ensures { out.new ≡ digits 8 96 (remainder p a (value 8 s.now)) }
{
    let mut r = [0u64; 13];
    level_remainder(&mut r, p, a, s);
    kernels::bytes::store(out, &r);
}

// The syndromes S_1, S_3, .. of the polynomial in r, which has w coefficients at most, as many as the list has places.
pub fn odd_from(list: &mut [u16], p: Parameters, r: &[u64], w: usize)
    requires { Accepted p × (w ≤ 64 * length r.now) × (w ≤ 768) × (w ≤ len p) × (value 64 r.now < 2 ^ w) }
    ensures { list.new ≡ odd_syndromes p (length list.old) (value 64 r.now) }
{
    let f = Field::of(p.q);
    syndrome::odd_of(list, f, r, w);
}

// All syndromes from the odd ones.
pub fn all_from(list: &mut [u16], p: Parameters, odd: &[u16])
    requires { Accepted p × (length list.old ≡ 2 * length odd.now) }
    ensures { list.new ≡ all_syndromes p odd.now }
{
    let f = Field::of(p.q);
    syndrome::all_of(list, odd, f);
}

// The divisor g_(v-l) / g_0, and its degree.
fn divisor_row(d: &mut Row, p: Parameters, l: usize) -> usize
    requires { Accepted p }
    ensures { (result ≡ deg (divisor p l)) × (value 64 d.new ≡ divisor p l) }
{
    let rows = levels::rows(p);
    let a = layout::level_of(p, l);
    let u = levels::degree_at(p, rows, a) as usize;
    let w = levels::degree_at(p, rows, 0) as usize;
    let f = rows[a];
    let g = rows[0];
    quotient(d, &f, u, &g, w);
    u - w
}

// The remainder of s by g_(v-l) / g_0, in 96 bytes.
pub fn short_into(out: &mut [u8], p: Parameters, l: usize, s: &[u8])
    requires { Accepted p × (length out.old ≡ 96) × (value 8 s.now < 2 ^ len p) }
    ensures { out.new ≡ digits 8 96 (rem (divisor p l) (deg (divisor p l)) (value 8 s.now)) }
{
    let mut d = [0u64; 13];
    let w = divisor_row(&mut d, p, l);
    let n = layout::length_of(p);
    let mut r = [0u64; 13];
    remainder_by(&mut r, &d, w, s, n);
    kernels::bytes::store(out, &r);
}
