// Bits read out of bytes.
ghost use Rattle.std.specs.Prelude.{◌≡◌, ◌+◌, ◌*◌, ◌/◌, ◌%◌, ◌^◌, ◌≤◌, ◌<◌, length, get_or};
ghost use Rattle.polynomial.specs.Digits.{value};

use std::array;

// The byte at `at`, 0 past the end.
fn byte_at(s: &[u8], at: usize) -> u8
    ensures { result ≡ get_or s.now at 0 }
{
    s.get(at).copied().unwrap_or(0)
}

// The word at byte `at`.
pub fn word_in(s: &[u8], at: usize) -> u64
    requires { at + 8 ≤ length s.now }
    ensures { result ≡ value 8 s.now / 2 ^ (8 * at) % 2 ^ 64 }
{
    u64::from_le_bytes(s[at..at + 8].try_into().unwrap())
}

// The 8 bytes at `at`, 0 past the end, as a word.
fn word_at(s: &[u8], at: usize) -> u64
    requires { at < 1000000 }
    ensures { result ≡ value 8 s.now / 2 ^ (8 * at) % 2 ^ 64 }
{
    if at + 8 <= s.len() {
        word_in(s, at)
    } else {
        u64::from_le_bytes(array::from_fn(|i| byte_at(s, at + i)))
    }
}

// The 64 coefficients from bit sh of byte `at` on, out of two words.
pub fn window_in(s: &[u8], at: usize, sh: usize) -> u64
    requires { (at + 16 ≤ length s.now) × (sh < 64) }
    ensures { result ≡ value 8 s.now / 2 ^ (8 * at + sh) % 2 ^ 64 }
{
    let lo = word_in(s, at);
    let hi = word_in(s, at + 8);
    (lo >> sh) + ((hi << 1) << (63 - sh))
}

// The `count` coefficients from x^pos on.
pub fn bits(s: &[u8], pos: usize, count: usize) -> u64
    requires { (pos < 1000000) × (1 ≤ count) × (count ≤ 64) }
    ensures { result ≡ value 8 s.now / 2 ^ pos % 2 ^ count }
{
    let at = pos / 8;
    let sh = pos % 8;
    let lo = word_at(s, at);
    let hi = u64::from(byte_at(s, at + 8));
    let x = (lo >> sh) + ((hi << 1) << (63 - sh));
    (x << (64 - count)) >> (64 - count)
}

// The `count` coefficients of s · x^up from x^pos on.
pub fn bits_up(s: &[u8], up: usize, pos: usize, count: usize) -> u64
    requires { (pos < 1000000) × (1 ≤ count) × (count ≤ 64) }
    ensures { result ≡ value 8 s.now * 2 ^ up / 2 ^ pos % 2 ^ count }
{
    if up <= pos {
        return bits(s, pos - up, count);
    }
    let d = up - pos;
    if d < count {
        bits(s, 0, count - d) << d
    } else {
        0
    }
}
