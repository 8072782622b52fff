// The places at whose inverse nodes a locator vanishes: its values at a third of them, of the terms 0, 3, .., of 1, 4, .. and of 2, 5, ..,
// five terms at a time; from these the values at all; then the zeros.
#![tactic(auto)]

ghost use Rattle.std.specs.Prelude.{◌≡◌, suc, ◌+◌, ◌-◌, ◌*◌, ◌/◌, ◌%◌, ◌<◌, ◌≤◌, ◌^◌, length, get_or, take};
ghost use Rattle.field.specs.Elements.{power};
ghost use Rattle.element.specs.Fields.{Sized};
ghost use Rattle.element.specs.Lent.{Tables};
ghost use Rattle.massey.specs.Entries.{Below};
ghost use Rattle.massey.specs.Steps.{Zeroed};
ghost use Rattle.tables.specs.Tables.{Logs};
ghost use Rattle.search.specs.Slots.{Holds, Sound, five, group, nth, sum5};
ghost use Rattle.search.specs.Thirds.{Filled, Turned, every};
ghost use Rattle.search.specs.Values.{Adding, Values};
ghost use Rattle.search.specs.Zeros.{Collected, Keeps, Rooted};

use element::Field;

// A term that the search runs through: α^e x^i, at x = 1/α^k for rising k, plus w. One whose coefficient is 0 has e = i = 0 and
// w = 1: so the loop over the places asks no Option. specs/Slots reads its fields.
#[derive(Clone, Copy)]
struct Slot {
    e: usize,
    i: usize,
    w: u16,
}

// The exponent of α^e / α^i.
fn next(f: Field, e: usize, i: usize) -> usize
    requires { Sized f × (e < 2 ^ f.q - 1) × (i < 2 ^ f.q - 1) }
    ensures { result ≡ (e + (2 ^ f.q - 1 - i)) % (2 ^ f.q - 1) }
{
    let n = f.order as usize;
    if e < i { e + (n - i) } else { e - i }
}

// The term i of the polynomial with the coefficients 0 to l of sig.
fn slot_of(logs: &[u16], f: Field, sig: &[u16], l: usize, i: usize) -> Slot
    requires { Sized f × Logs f.q (take (2 ^ f.q) logs.now) × Below f.q sig.now × (l < length sig.now) × (l < 2 ^ f.q - 1) }
    ensures { Holds f.q result (λ k. nth f.q sig.now l i k) }
{
    if l < i || sig[i] == 0 {
        return Slot { e: 0, i: 0, w: 1 };
    }
    let e = element::log(logs, u32::from(sig[i])) as usize;
    Slot { e, i, w: 0 }
}

// The sum of five powers.
fn powers_sum(powers: &[u16], a: usize, b: usize, c: usize, d: usize, e: usize) -> u16
    requires { (a < length powers.now) × (b < length powers.now) × (c < length powers.now) × (d < length powers.now)
        × (e < length powers.now) }
    ensures { result ≡ sum5 (get_or powers.now a 0) (get_or powers.now b 0) (get_or powers.now c 0)
        (get_or powers.now d 0) (get_or powers.now e 0) }
{
    powers[a] ^ powers[b] ^ powers[c] ^ powers[d] ^ powers[e]
}

// What five slots give at place k is added to entry k, for k below z. Their exponents are five chains that do not wait for each other.
fn add_five(
    powers: &[u16],
    logs: &[u16],
    f: Field,
    acc: &mut [u16],
    z: usize,
    a: Slot,
    b: Slot,
    c: Slot,
    d: Slot,
    e: Slot,
)
    requires { Tables f powers.now logs.now × Below f.q acc.old × (z ≤ length acc.old) × Sound f.q a × Sound f.q b
        × Sound f.q c × Sound f.q d × Sound f.q e }
    ensures { Adding f.q acc.old (λ k. five f.q a b c d e k) z acc.new }
{
    let w = a.w ^ b.w ^ c.w ^ d.w ^ e.w;
    let mut p = a.e;
    let mut q = b.e;
    let mut r = c.e;
    let mut s = d.e;
    let mut t = e.e;
    for k in 0..z {
        let x = powers_sum(powers, p, q, r, s, t);
        acc[k] ^= w ^ x;
        p = next(f, p, a.i);
        q = next(f, q, b.i);
        r = next(f, r, c.i);
        s = next(f, s, d.i);
        t = next(f, t, e.i);
    }
}

// The terms i, i + 3, .., i + 12 are added.
fn add_group(
    powers: &[u16],
    logs: &[u16],
    f: Field,
    sig: &[u16],
    l: usize,
    i: usize,
    acc: &mut [u16],
    z: usize,
)
    requires { Tables f powers.now logs.now × Below f.q sig.now × (l < length sig.now) × (l < 2 ^ f.q - 1)
        × (i < 8192) × Below f.q acc.old × (z ≤ length acc.old) }
    ensures { Adding f.q acc.old (λ k. group f.q sig.now l i k) z acc.new }
{
    let a = slot_of(logs, f, sig, l, i);
    let b = slot_of(logs, f, sig, l, i + 3);
    let c = slot_of(logs, f, sig, l, i + 6);
    let d = slot_of(logs, f, sig, l, i + 9);
    let e = slot_of(logs, f, sig, l, i + 12);
    add_five(powers, logs, f, acc, z, a, b, c, d, e);
}

// The values at every 1/α^k, k below z, of the terms c, c + 3, c + 6, .. of the polynomial with the coefficients 0 to l of sig.
fn values(
    powers: &[u16],
    logs: &[u16],
    f: Field,
    sig: &[u16],
    l: usize,
    c: usize,
    acc: &mut [u16],
    z: usize,
)
    requires { Tables f powers.now logs.now × Below f.q sig.now × (l < length sig.now) × (l < 2 ^ f.q - 1)
        × (c < 3) × Zeroed acc.old × (z ≤ length acc.old) }
    ensures { Values f.q (every f.q sig.now l c) (5 * (l / 15 + 1)) z acc.new }
{
    for g in 0..l / 15 + 1 {
        add_group(powers, logs, f, sig, l, c + 15 * g, acc, z);
    }
}

// Values at three places; no array, since `Turned` (Thirds) reads its fields.
#[derive(Clone, Copy)]
struct Three {
    x: u16,
    y: u16,
    z: u16,
}

// a + b + c, a + ω (b + c) + b and a + ω (b + c) + c.
fn three_of(powers: &[u16], logs: &[u16], f: Field, w: u16, a: u16, b: u16, c: u16) -> Three
    requires { Tables f powers.now logs.now × (w < 2 ^ f.q) × (a < 2 ^ f.q) × (b < 2 ^ f.q) × (c < 2 ^ f.q) }
    ensures { Turned f.q w a b c result }
{
    let s = b ^ c;
    let p = element::times_lent(powers, logs, f, u32::from(w), u32::from(s)) as u16;
    Three {
        x: a ^ s,
        y: a ^ (p ^ b),
        z: a ^ (p ^ c),
    }
}

// The values at all places from those of the terms 0, 3, .., 1, 4, .. and 2, 5, .. at the places below h = n / 3: ω = α^h is a cube root of 1.
fn combine(
    powers: &[u16],
    logs: &[u16],
    f: Field,
    a: &[u16],
    b: &[u16],
    c: &[u16],
    h: usize,
    acc: &mut [u16],
)
    requires { Tables f powers.now logs.now × Below f.q a.now × Below f.q b.now × Below f.q c.now
        × (h ≤ length a.now) × (h ≤ length b.now) × (h ≤ length c.now) × (3 * h ≡ 2 ^ f.q - 1)
        × Below f.q acc.old × (3 * h ≤ length acc.old) }
    ensures { Filled f.q (power f.q h) a.now b.now c.now h h acc.new }
{
    let w = powers[h];
    for k in 0..h {
        let r = three_of(powers, logs, f, w, a[k], b[k], c[k]);
        acc[k] = r.x;
        acc[h + k] = r.y;
        acc[2 * h + k] = r.z;
    }
}

// Place k is kept where its entry x is 0: the new count.
fn keep(list: &mut [u16], c: usize, k: usize, x: u16) -> usize
    requires { (k < 4096) × (c ≤ k) }
    ensures { Keeps x k c list.old result list.new }
{
    if x != 0 {
        return c;
    }
    if c < list.len() {
        list[c] = k as u16;
    }
    c + 1
}

// The places below z whose entries are 0, rising: their number, and as many of them as the list has places.
fn collect(acc: &[u16], z: usize, list: &mut [u16]) -> usize
    requires { (z ≤ length acc.now) × (z ≤ 4096) }
    ensures { Collected acc.now z result list.old list.new }
{
    let mut c: usize = 0;
    for k in 0..z {
        c = keep(list, c, k, acc[k]);
    }
    c
}

// The places k below z with σ(1/α^k) = 0, rising, σ having the coefficients 0 to l of sig: their number, and as many of them as the
// list has places.
pub fn roots(
    powers: &[u16],
    logs: &[u16],
    f: Field,
    sig: &[u16],
    l: usize,
    z: usize,
    list: &mut [u16],
) -> usize
    requires { Tables f powers.now logs.now × Below f.q sig.now × (l < length sig.now) × (l < 2 ^ f.q - 1)
        × (z ≤ 2 ^ f.q - 1) }
    ensures { Rooted f.q sig.now (suc l) z result list.old list.new }
{
    let h = f.order as usize / 3;
    let mut a = [0u16; 1365];
    values(powers, logs, f, sig, l, 0, &mut a, h);
    let mut b = [0u16; 1365];
    values(powers, logs, f, sig, l, 1, &mut b, h);
    let mut c = [0u16; 1365];
    values(powers, logs, f, sig, l, 2, &mut c, h);
    let mut acc = [0u16; 4095];
    combine(powers, logs, f, &a, &b, &c, h, &mut acc);
    collect(&acc, z, list)
}
