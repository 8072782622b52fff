// Polynomials in bytes: copied, moved, added.
ghost use Rattle.std.specs.Prelude.{◌≡◌, ◌++◌, ◌+◌, ◌-◌, ◌*◌, ◌/◌, ◌%◌, ◌^◌, ◌≤◌, ◌<◌, length, take, drop};
ghost use Rattle.polynomial.specs.Digits.{value, digits};
ghost use Rattle.polynomial.specs.Division.{rem};
ghost use Rattle.polynomial.specs.Xor.{xor};
ghost use Rattle.kernels.specs.Row.{D};

use crate::bits::{bits, bits_up, window_in, word_in};
use crate::row::Row;

// The 8 bytes at `at` are set to v.
pub fn put_word(dst: &mut [u8], at: usize, v: u64)
    requires { at + 8 ≤ length dst.old }
    ensures { dst.new ≡ take at dst.old ++ digits 8 8 v ++ drop (at + 8) dst.old }
{
    dst[at..at + 8].copy_from_slice(&v.to_le_bytes());
}

// v is added from byte `at` on.
pub fn add_word(acc: &mut [u8], at: usize, v: u64)
    requires { at + 8 ≤ length acc.old }
    ensures { value 8 acc.new ≡ xor (value 8 acc.old) (v * 2 ^ (8 * at)) }
{
    let w = word_in(acc, at);
    put_word(acc, at, w ^ v);
}

// v is added from byte `at` on, where fewer than 8 may follow.
pub fn add_bytes(acc: &mut [u8], at: usize, v: u64)
    requires { (at ≤ length acc.old) × (v < 2 ^ (8 * (length acc.old - at))) }
    ensures { value 8 acc.new ≡ xor (value 8 acc.old) (v * 2 ^ (8 * at)) }
{
    let bytes = v.to_le_bytes();
    for i in 0..bytes.len().min(acc.len() - at) {
        acc[at + i] ^= bytes[i];
    }
}

// How many whole words stand from byte `at` on.
fn words_from(len: usize, at: usize) -> usize
    ensures { 8 * result ≤ len - at }
{
    len.saturating_sub(at) / 8
}

// `count` words of x · x^up, from x^pos on, are added from byte `from` on.
fn add_words(acc: &mut [u8], from: usize, x: &[u8], up: usize, pos: usize, count: usize)
    requires { (from + 8 * count ≤ length acc.old) × (pos + 64 * count < 1000000) }
    ensures { value 8 acc.new
        ≡ xor (value 8 acc.old) (value 8 x.now * 2 ^ up / 2 ^ pos % 2 ^ (8 * (8 * count)) * 2 ^ (8 * from)) }
{
    for k in 0..count {
        let v = bits_up(x, up, pos + 64 * k, 64);
        add_word(acc, from + 8 * k, v);
    }
}

// `count` words of x, from bit sh of byte `at` on, are added from byte `from` on; 8 bytes of x follow them.
// No test in the loop: compiled, it takes two words at a time.
fn add_windows(acc: &mut [u8], from: usize, x: &[u8], at: usize, sh: usize, count: usize)
    requires { (from + 8 * count ≤ length acc.old) × (8 * count ≤ length x.now - (at + 8)) × (sh < 64) }
    ensures { value 8 acc.new
        ≡ xor (value 8 acc.old) (value 8 x.now / 2 ^ (8 * at + sh) % 2 ^ (8 * (8 * count)) * 2 ^ (8 * from)) }
{
    for k in 0..count {
        let v = window_in(x, at + 8 * k, sh);
        add_word(acc, from + 8 * k, v);
    }
}

// x · x^up, from x^pos on, is added from byte `from` on; what passes acc's end is lost.
fn add_rest(acc: &mut [u8], from: usize, x: &[u8], up: usize, pos: usize)
    requires { (from ≤ length acc.old) × (length acc.old < 8192) × (pos < 500000) }
    ensures { value 8 acc.new ≡ xor (value 8 acc.old)
        (value 8 x.now * 2 ^ up / 2 ^ pos % 2 ^ (8 * (length acc.old - from)) * 2 ^ (8 * from)) }
{
    let n = acc.len() - from;
    let c = n / 8;
    add_words(acc, from, x, up, pos, c);
    if n % 8 != 0 {
        let v = bits_up(x, up, pos + 64 * c, 8 * (n % 8));
        add_bytes(acc, from + 8 * c, v);
    }
}

// The `count` lowest words of x are added.
fn add_in(acc: &mut [u8], x: &[u8], count: usize)
    requires { (8 * count ≤ length acc.old) × (8 * count ≤ length x.now) }
    ensures { value 8 acc.new ≡ xor (value 8 acc.old) (value 8 x.now % 2 ^ (8 * (8 * count))) }
{
    for k in 0..count {
        let v = word_in(x, 8 * k);
        add_word(acc, 8 * k, v);
    }
}

// x is added into acc; what passes acc's end is lost.
fn add_low(acc: &mut [u8], x: &[u8])
    requires { length acc.old < 8192 }
    ensures { value 8 acc.new ≡ xor (value 8 acc.old) (value 8 x.now % 2 ^ (8 * length acc.old)) }
{
    let c = (acc.len() / 8).min(x.len() / 8);
    add_in(acc, x, c);
    if x.len() < 8 * c + 8 && 8 * c + 8 <= acc.len() {
        let v = bits_up(x, 0, 64 * c, 64);
        add_word(acc, 8 * c, v);
    } else {
        add_rest(acc, 8 * c, x, 0, 64 * c);
    }
}

// x moved up by s places is added into acc; what passes acc's end is lost.
// From byte o on each byte has 8 coefficients of x: the words from there on as far as x has two words for each are added by windows.
pub fn add_up(acc: &mut [u8], x: &[u8], s: usize)
    requires { length acc.old < 8192 }
    ensures { value 8 acc.new
        ≡ xor (value 8 acc.old) (value 8 x.now * 2 ^ s % 2 ^ (8 * length acc.old)) }
{
    if s == 0 {
        add_low(acc, x);
        return;
    }
    let o = s / 8 + (s % 8 + 7) / 8;
    let h = (o + 7) / 8;
    if acc.len() < 8 * h {
        add_rest(acc, 0, x, s, 0);
        return;
    }
    let from = 8 * h;
    let at = from - o;
    let c = words_from(acc.len(), from).min(words_from(x.len(), at + 8));
    add_words(acc, 0, x, s, 0, h);
    add_windows(acc, from, x, at, 8 * o - s, c);
    let end = from + 8 * c;
    add_rest(acc, end, x, s, 8 * end);
}

// a is moved up by s places, and b is added; what passes a's end is lost.
pub fn raise(a: &mut [u8], b: &[u8], s: usize)
    requires { (length a.old % 8 ≡ 0) × (length b.now ≡ length a.old) × (s < 64) }
    ensures { value 8 a.new
        ≡ xor (value 8 a.old * 2 ^ s) (value 8 b.now) % 2 ^ (8 * length a.old) }
{
    let mut c = 0;
    for k in 0..a.len() / 8 {
        let w = word_in(a, 8 * k);
        let x = word_in(b, 8 * k);
        put_word(a, 8 * k, ((w << s) + c) ^ x);
        c = (w >> 1) >> (63 - s);
    }
}

// The bytes from `from` on are set to 0.
pub fn clear_bytes(acc: &mut [u8], from: usize)
    requires { from ≤ length acc.old }
    ensures { value 8 acc.new ≡ value 8 (take from acc.old) }
{
    acc[from..].fill(0);
}

// src moved up by w places is copied to dst; what passes dst's end is lost.
pub fn copy_up(dst: &mut [u8], src: &[u8], w: usize)
    requires { length dst.old < 8192 }
    ensures { value 8 dst.new ≡ value 8 src.now * 2 ^ w % 2 ^ (8 * length dst.old) }
{
    clear_bytes(dst, 0);
    add_up(dst, src, w);
}

// src moved down by w places is copied to dst.
pub fn copy_down(dst: &mut [u8], src: &[u8], w: usize)
    requires { (w < 8192) × (length dst.old < 8192) }
    ensures { value 8 dst.new ≡ value 8 src.now / 2 ^ w % 2 ^ (8 * length dst.old) }
{
    let at = w / 8;
    let c = (dst.len() / 8).min(words_from(src.len(), at + 8));
    clear_bytes(dst, 0);
    add_windows(dst, 0, src, at, w % 8, c);
    add_rest(dst, 8 * c, src, 0, w + 64 * c);
}

// The w check coefficients in r are put below the data in dst, whose own w lowest are 0.
pub fn store_low(dst: &mut [u8], r: &[u64], w: usize)
    requires { (w ≤ 64 * length r.now) × (w ≤ 8 * length dst.old) × (value 64 r.now < 2 ^ w) × (value 8 dst.old % 2 ^ w ≡ 0) }
    ensures { value 8 dst.new ≡ value 8 dst.old + value 64 r.now }
{
    let n = w / 64;
    for k in 0..n {
        add_word(dst, 8 * k, r[k]);
    }
    if w % 64 != 0 {
        add_bytes(dst, 8 * n, r[n]);
    }
}

// The register r fills the 96 bytes of dst.
pub fn store(dst: &mut [u8], r: &Row)
    requires { (length dst.old ≡ 96) × (value 64 r.now < 2 ^ D) }
    ensures { dst.new ≡ digits 8 96 (value 64 r.now) }
{
    for k in 0..12 {
        put_word(dst, 8 * k, r[k]);
    }
}

// The coefficients from x^n on are set to 0; n is a byte's highest.
fn clear_from(acc: &mut [u8], n: usize)
    requires { (n % 8 ≡ 7) × (n < 8 * length acc.old) }
    ensures { value 8 acc.new ≡ value 8 acc.old % 2 ^ n }
{
    let k = n / 8;
    acc[k] %= 128;
    clear_bytes(acc, k + 1);
}

// acc is folded modulo x^n + 1: what stands from x^n on is added below.
pub fn fold_cyclic(acc: &mut [u8], n: usize)
    requires { (n % 8 ≡ 7) × (n < 1000000) × (n < 8 * length acc.old) × (value 8 acc.old < 2 ^ (64 + n))
        × (value 8 acc.old < 2 ^ (n + n)) }
    ensures { value 8 acc.new ≡ rem (2 ^ n + 1) n (value 8 acc.old) }
{
    let top = bits(acc, n, 64);
    clear_from(acc, n);
    add_bytes(acc, 0, top);
}
