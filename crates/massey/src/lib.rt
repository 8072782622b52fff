// Berlekamp's and Massey's algorithm on lists of 16-bit numbers, by lent tables of powers and logs.
#![tactic(auto)]

ghost use Rattle.std.specs.Prelude.{◌≡◌, suc, ◌-◌, ◌*◌, ◌<◌, ◌≤◌, ◌^◌, length};
ghost use Rattle.field.specs.Elements.{power, times};
ghost use Rattle.element.specs.Lent.{Tables};
ghost use Rattle.massey.specs.Entries.{Below, Product, Dot, Added};
ghost use Rattle.massey.specs.Loops.{Shifted, Jumped};
ghost use Rattle.massey.specs.Steps.{Zeroed, After, Turned, Done};

use element::Field;
use std::mem;

// The product of two elements.
pub fn product(powers: &[u16], logs: &[u16], f: Field, a: u16, b: u16) -> u16
    requires { Tables f powers.now logs.now × (a < 2 ^ f.q) × (b < 2 ^ f.q) }
    ensures { Product f.q a b result }
{
    let r = element::times_lent(powers, logs, f, a as u32, b as u32);
    r as u16
}

// The product of the element with the log k and another.
pub fn multiple(powers: &[u16], logs: &[u16], f: Field, k: u16, b: u16) -> u16
    requires { Tables f powers.now logs.now × (k < 2 ^ f.q - 1) × (b < 2 ^ f.q) }
    ensures { Product f.q (power f.q k) b result }
{
    if b == 0 {
        return 0;
    }
    let j = element::log(logs, b as u32);
    let e = element::add_logs(f, k, j);
    powers[e as usize]
}

// The inverse of an element above 0.
fn inverse(powers: &[u16], logs: &[u16], f: Field, d: u16) -> u16
    requires { Tables f powers.now logs.now × (0 < d) × (d < 2 ^ f.q) }
    ensures { (times f.q d result ≡ 1) × (result < 2 ^ f.q) }
{
    let k = element::log(logs, d as u32);
    let n = f.order;
    let e = element::modulo(n, n - k as u32);
    let r = element::root(powers, e);
    r as u16
}

// The discrepancy of turn r: the sum of sig[i] × s[r - i], i from 0 to l.
fn discrepancy(
    powers: &[u16],
    logs: &[u16],
    f: Field,
    sig: &[u16],
    s: &[u16],
    r: usize,
    l: usize,
) -> u16
    requires { Tables f powers.now logs.now × Below f.q sig.now × Below f.q s.now × (l < length sig.now) × (l ≤ r) × (r < length s.now) }
    ensures { Dot f.q s.now sig.now r (suc l) result }
{
    let mut d = 0;
    for i in 0..=l {
        d ^= product(powers, logs, f, sig[i], s[r - i]);
    }
    d
}

// d times `old` is added, d being above 0.
fn add_times(powers: &[u16], logs: &[u16], f: Field, sig: &mut [u16], old: &[u16], d: u16)
    requires { Tables f powers.now logs.now × Below f.q sig.old × Below f.q old.now × (0 < d) × (d < 2 ^ f.q) × (length sig.old ≡ length old.now) }
    ensures { Added f.q sig.old old.now d sig.new }
{
    let k = element::log(logs, d as u32);
    for i in 0..old.len() {
        sig[i] ^= multiple(powers, logs, f, k, old[i]);
    }
}

// Every entry moves up by one, and the first is 0.
fn shift(old: &mut [u16])
    ensures { Shifted old.old old.new }
{
    let mut c = 0;
    for x in old.iter_mut() {
        mem::swap(x, &mut c);
    }
}

// d times `old` is added to `sig`, and `old` becomes e times what `sig` was; d and e are above 0.
fn jump(powers: &[u16], logs: &[u16], f: Field, sig: &mut [u16], old: &mut [u16], d: u16, e: u16)
    requires { Tables f powers.now logs.now × Below f.q sig.old × Below f.q old.old × (0 < d) × (d < 2 ^ f.q) × (0 < e) × (e < 2 ^ f.q) × (length sig.old ≡ length old.old) }
    ensures { Jumped f.q sig.old old.old d e sig.new old.new }
{
    let k = element::log(logs, d as u32);
    let m = element::log(logs, e as u32);
    for i in 0..sig.len() {
        let w = sig[i];
        sig[i] ^= multiple(powers, logs, f, k, old[i]);
        old[i] = multiple(powers, logs, f, m, w);
    }
}

// Turn r. The new bound, or more than t: too many errors.
fn turn(
    powers: &[u16],
    logs: &[u16],
    f: Field,
    s: &[u16],
    t: usize,
    sig: &mut [u16],
    old: &mut [u16],
    l: usize,
    r: usize,
) -> usize
    requires { Tables f powers.now logs.now × Below f.q s.now × (t ≤ 64) × (r < 2 * t) × (2 * t ≤ length s.now) × (t < length sig.old) × (l ≤ t) × (l ≤ r) × After f.q s.now r l sig.old old.old }
    ensures { Turned f.q s.now t r result sig.new old.new }
{
    let d = discrepancy(powers, logs, f, sig, s, r, l);
    if d == 0 {
        shift(old);
        return l;
    }
    if r < 2 * l {
        add_times(powers, logs, f, sig, old, d);
        shift(old);
        return l;
    }
    if t < r + 1 - l {
        return t + 1;
    }
    let e = inverse(powers, logs, f, d);
    jump(powers, logs, f, sig, old, d, e);
    shift(old);
    r + 1 - l
}

// Berlekamp's and Massey's algorithm on the sums s: the locator is left in `sig`, its bound is the result; more than t: too many errors.
pub fn massey(
    powers: &[u16],
    logs: &[u16],
    f: Field,
    s: &[u16],
    t: usize,
    sig: &mut [u16],
    old: &mut [u16],
) -> usize
    requires { Tables f powers.now logs.now × Below f.q s.now × (t ≤ 64) × (2 * t ≤ length s.now) × (t < length sig.old) × (length sig.old ≡ length old.old) × Zeroed sig.old × Zeroed old.old }
    ensures { Done f.q s.now t result sig.new old.new }
{
    sig[0] = 1;
    let mut l = 0;
    for r in 0..2 * t {
        l = turn(powers, logs, f, s, t, sig, old, l, r);
        if t < l {
            return l;
        }
    }
    l
}
