// Rows of 13 words. A register is a row whose 13th word is 0 between steps; the remainder stands below x^768, in the lower 12.
ghost use Rattle.std.specs.Prelude.{◌≡◌, ◌+◌, ◌-◌, ◌*◌, ◌/◌, ◌%◌, ◌^◌, ◌≤◌, ◌<◌, eqb, length, get_or};
ghost use Rattle.polynomial.specs.Digits.{value};
ghost use Rattle.polynomial.specs.Division.{deg};
ghost use Rattle.polynomial.specs.Xor.{xor};
ghost use Rattle.kernels.specs.Value.{Bounded};

use std::mem;

// 13 words of a polynomial, lowest first.
pub type Row = [u64; 13];

// r is moved up by a whole word.
fn shift_word(r: &mut Row)
    requires { get_or r.old 12 0 ≡ 0 }
    ensures { (value 64 r.new ≡ value 64 r.old * 2 ^ 64) × Bounded 64 r.new }
{
    let mut c = 0;
    for i in 0..12 {
        c = mem::replace(&mut r[i], c);
    }
    r[12] = c;
}

// r is moved up by l places, 1 to 64, into the 13th word.
pub fn shift(r: &mut Row, l: usize)
    requires { (1 ≤ l) × (l ≤ 64) × (get_or r.old 12 0 ≡ 0) }
    ensures { (value 64 r.new ≡ value 64 r.old * 2 ^ l) × Bounded 64 r.new }
{
    if l == 64 {
        shift_word(r);
        return;
    }
    let mut c = 0;
    for i in 0..12 {
        let w = r[i];
        r[i] = (w << l) + c;
        c = w >> (64 - l);
    }
    r[12] = c;
}

// u is added at place p.
pub fn insert(r: &mut Row, u: u64, p: usize)
    requires { p < 768 }
    ensures { (value 64 r.new ≡ xor (value 64 r.old) (u * 2 ^ p)) × Bounded 64 r.new }
{
    let q = p / 64;
    let s = p % 64;
    r[q] ^= u << s;
    r[q + 1] ^= (u >> 1) >> (63 - s);
}

// g is added into e.
pub fn add(e: &mut Row, g: &Row)
    ensures { (value 64 e.new ≡ xor (value 64 e.old) (value 64 g.now)) × Bounded 64 e.new }
{
    for j in 0..13 {
        e[j] ^= g[j];
    }
}

// Every word is set to 0.
pub fn clear(r: &mut [u64])
    ensures { value 64 r.new ≡ 0 }
{
    r.fill(0);
}

// The word at `at`, 0 past the end.
fn word_at(g: &[u64], at: usize) -> u64
    ensures { result ≡ get_or g.now at 0 }
{
    g.get(at).copied().unwrap_or(0)
}

// The 64 coefficients from x^pos on.
fn window(g: &[u64], pos: usize) -> u64
    requires { pos < 1000000 }
    ensures { result ≡ value 64 g.now / 2 ^ pos % 2 ^ 64 }
{
    let at = pos / 64;
    let s = pos % 64;
    let lo = word_at(g, at);
    let hi = word_at(g, at + 1);
    (lo >> s) + ((hi << 1) << (63 - s))
}

// The 64 coefficients of g · x^up from x^pos on.
fn window_up(g: &[u64], up: usize, pos: usize) -> u64
    requires { pos < 1000000 }
    ensures { result ≡ value 64 g.now * 2 ^ up / 2 ^ pos % 2 ^ 64 }
{
    if up <= pos {
        return window(g, pos - up);
    }
    let d = up - pos;
    if d < 64 { word_at(g, 0) << d } else { 0 }
}

// g, of degree w at most, is moved up in r so that x^w stands at x^768.
pub fn align(r: &mut Row, g: &[u64], w: usize)
    requires { (w ≤ 768) × (value 64 g.now < 2 ^ (w + 1)) }
    ensures { (value 64 r.new ≡ value 64 g.now * 2 ^ (768 - w)) × Bounded 64 r.new }
{
    let s = 768 - w;
    for (i, w) in r.iter_mut().enumerate() {
        *w = window_up(g, s, 64 * i);
    }
}

// r is moved down by s places; what passes x^0 is lost.
pub fn lower(r: &mut Row, s: usize)
    requires { s ≤ 768 }
    ensures { (value 64 r.new ≡ value 64 r.old / 2 ^ s) × Bounded 64 r.new }
{
    for i in 0..13 {
        r[i] = window(r, s + 64 * i);
    }
}

// The degree of r.
pub fn degree_of(r: &Row) -> usize
    requires { 0 < value 64 r.now }
    ensures { result ≡ deg (value 64 r.now) }
{
    let i = r.iter().rposition(|w| *w != 0).unwrap();
    64 * i + r[i].ilog2() as usize
}

// Is r the polynomial 0?
pub fn is_zero(r: &[u64]) -> bool
    ensures { result ≡ eqb (value 64 r.now) 0 }
{
    r.iter().all(|w| *w == 0)
}
