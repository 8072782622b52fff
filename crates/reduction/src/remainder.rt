// Remainders by a table t of a generator that is moved up by p to degree 768. A polynomial is fed from its highest coefficients on, l at a
// time: by `step` at the place p, so that the register holds the remainder of all that was fed, moved up by p;
// for a plain remainder at x^768, without the coefficients below the degree.
ghost use Rattle.std.specs.Prelude.{◌≡◌, ◌+◌, ◌*◌, ◌/◌, ◌%◌, ◌^◌, ◌≤◌, ◌<◌, length, take};
ghost use Rattle.polynomial.specs.Digits.{value};
ghost use Rattle.polynomial.specs.Xor.{xor};
ghost use Rattle.kernels.specs.Row.{D};
ghost use Rattle.kernels.specs.Value.{Bounded};
ghost use Rattle.reduction.specs.Reduce.{TopAdded};
ghost use Rattle.reduction.specs.Step.{Adding, Reducing, RowFrom, Stepping};
ghost use Rattle.reduction.specs.Sum.{Copied};
ghost use Rattle.reduction.specs.Table.{MovedUp, RemainderBy, row_at, four, Reduced};

use kernels::bits::bits;
use kernels::row::{Row, clear, insert, lower, shift};

// The words of src from `from` on, below the 13th, are copied to dst. Slices: rows of 12 words and of 13.
pub fn copy(dst: &mut [u64], src: &[u64], from: usize)
    requires { (12 ≤ length dst.old) × (12 ≤ length src.now) × (from ≤ 12) × (take from dst.old ≡ take from src.now) }
    ensures { Copied dst.old dst.new src.now 12 }
{
    dst[from..12].copy_from_slice(&src[from..12]);
}

// Four rows are added, which stand at a, b, c and d; their words below `from` are 0.
fn add_rows(v: &mut [u64; 12], t: &[u64], a: usize, b: usize, c: usize, d: usize, from: usize)
    requires { Adding v.old t.now from
        × RowFrom t.now a from × RowFrom t.now b from × RowFrom t.now c from × RowFrom t.now d from }
    ensures { (value 64 v.new ≡ xor (value 64 v.old)
        (xor (row_at t.now a) (xor (row_at t.now b) (xor (row_at t.now c) (row_at t.now d)))))
        × (take from v.new ≡ take from v.old) }
{
    for j in from..12 {
        v[j] ^= t[a + j] ^ t[b + j] ^ t[c + j] ^ t[d + j];
    }
}

// Four rows are added, which u's four lowest hex digits choose among the 64 rows from 64 k on.
fn add_four(v: &mut [u64; 12], t: &[u64], k: usize, u: u64, from: usize)
    requires { Adding v.old t.now from × MovedUp t.now (64 * from) × (k < 4) }
    ensures { (value 64 v.new ≡ xor (value 64 v.old) (four t.now (64 * k) u))
        × (take from v.new ≡ take from v.old) }
{
    let at = k * 768;
    let a = at + (u % 16) as usize * 12;
    let b = at + 192 + (u / 16 % 16) as usize * 12;
    let c = at + 384 + (u / 256 % 16) as usize * 12;
    let d = at + 576 + (u / 4096 % 16) as usize * 12;
    add_rows(v, t, a, b, c, d, from);
}

// The remainder of top · x^768 is added: the rows that top's hex digits choose, up to its highest that is not 0.
fn add_top(v: &mut [u64; 12], t: &[u64], top: u64, from: usize)
    requires { Adding v.old t.now from × MovedUp t.now (64 * from) }
    ensures { TopAdded t.now (value 64 v.old) top (value 64 v.new)
        × (take from v.new ≡ take from v.old) }
{
    let mut u = top;
    let mut k: usize = 0;
    // A `while`: it ends where no digit of u is left, and a range has all four places.
    while u != 0 {
        add_four(v, t, k, u, from);
        u /= 65536;
        k += 1;
    }
}

// What stands in the 13th word is reduced; the words below `from` are 0, and stay it.
// A slice: that each word of r fits at the end is known of a slice, and not of an array after a call.
fn reduce(r: &mut [u64], t: &[u64], from: usize)
    requires { Reducing r.old t.now (64 * from) }
    ensures { Reduced t.now (value 64 r.old) (value 64 r.new) × Bounded 64 r.new }
{
    let top = r[12];
    r[12] = 0;
    // The sum is made aside, so that no store stands between two loads: the compiler holds it in registers, two words in each.
    let mut v = [0u64; 12];
    copy(&mut v, r, from);
    add_top(&mut v, t, top, from);
    copy(r, &v, from);
}

// One step: the register is moved up by l places, u is added at place p, and what passes x^768 is reduced. All is a multiple of x^p: from
// p = 384 on the lower six words are 0. Each call has its own number, so that the compiler makes straight code of the loops over words.
pub fn step(r: &mut Row, t: &[u64], u: u64, l: usize, p: usize)
    requires { Stepping r.old t.now p × (1 ≤ l) × (l ≤ 64) }
    ensures { Reduced t.now (xor (value 64 r.old * 2 ^ l) (u * 2 ^ p)) (value 64 r.new) × Bounded 64 r.new }
{
    shift(r, l);
    insert(r, u, p);
    if p < 384 {
        reduce(r, t, 0);
    } else {
        reduce(r, t, 6);
    }
}

// The words of src from `from` on, below the 12th, are copied to dst, each one place higher.
pub fn copy_next(dst: &mut [u64; 12], src: &[u64], from: usize)
    requires { (12 ≤ length src.now) × (from ≤ 11)
        × (value 64 (take (from + 1) dst.old) ≡ value 64 (take from src.now) * 2 ^ 64) }
    ensures { (value 64 dst.new ≡ value 64 (take 11 src.now) * 2 ^ 64)
        × (take (from + 1) dst.new ≡ take (from + 1) dst.old) × Bounded 64 dst.new }
{
    dst[from + 1..].copy_from_slice(&src[from..11]);
}

// A step by a whole word that enters at x^768: the register is moved up, and what passes x^768 is reduced with u.
// The words below `from` are 0, and stay it.
// A slice: that each word of r fits at the end is known of a slice, and not of an array after a call.
fn step_word(r: &mut [u64], t: &[u64], u: u64, from: usize)
    requires { Stepping r.old t.now (64 * from) }
    ensures { Reduced t.now (xor (value 64 r.old * 2 ^ 64) (u * 2 ^ D)) (value 64 r.new) }
{
    let top = r[11] ^ u;
    let mut v = [0u64; 12];
    copy_next(&mut v, r, from);
    add_top(&mut v, t, top, from);
    copy(r, &v, from);
}

// The same, where all is a multiple of x^p.
fn step_whole(r: &mut Row, t: &[u64], u: u64, p: usize)
    requires { Stepping r.old t.now p }
    ensures { Reduced t.now (xor (value 64 r.old * 2 ^ 64) (u * 2 ^ D)) (value 64 r.new) }
{
    if p < 384 {
        step_word(r, t, u, 0);
    } else {
        step_word(r, t, u, 6);
    }
}

// The lower 12 words of r, moved up by l places, are added into v; what passes x^768 is lost.
fn add_shifted(v: &mut [u64; 12], r: &[u64], l: usize)
    requires { (12 ≤ length r.now) × (1 ≤ l) × (l < 64) }
    ensures { value 64 v.new ≡ xor (value 64 v.old) (value 64 (take 12 r.now) * 2 ^ l % 2 ^ D) }
{
    let mut c: u64 = 0;
    for j in 0..12 {
        let w = r[j];
        v[j] ^= (w << l) ^ c;
        c = w >> (64 - l);
    }
}

// A step by l places, fewer than 64, that enters at x^768.
// A slice: that each word of r fits at the end is known of a slice, and not of an array after a call.
fn step_part(r: &mut [u64], t: &[u64], u: u64, l: usize)
    requires { Stepping r.old t.now 0 × (1 ≤ l) × (l < 64) }
    ensures { Reduced t.now (xor (value 64 r.old * 2 ^ l) (u * 2 ^ D)) (value 64 r.new) }
{
    let top = (r[11] >> (64 - l)) ^ u;
    let mut v = [0u64; 12];
    add_shifted(&mut v, r, l);
    add_top(&mut v, t, top, 0);
    copy(r, &v, 0);
}

// The coefficients of s from x^w on, below x^n, are fed to a register of 0 at x^768 in whole words, as far as these reach: down to the
// place that is handed back. The register is kept aside, where the compiler can hold it from step to step.
fn feed_words(r: &mut Row, t: &[u64], s: &[u8], n: usize, w: usize, p: usize) -> usize
    requires { (length t.now ≡ 3072) × (p < 768) × (value 64 r.old ≡ 0) × (w ≤ n) × (n < 1000000)
        × MovedUp t.now p }
    ensures { (w ≤ result) × (result ≤ n) × (result < w + 64)
        × Reduced t.now (value 8 s.now % 2 ^ n / 2 ^ result * 2 ^ D) (value 64 r.new) }
{
    let mut v = [0u64; 13];
    let q = w + (n - w) % 64;
    for i in (0..(n - w) / 64).rev() {
        let u = bits(s, q + 64 * i, 64);
        step_whole(&mut v, t, u, p);
    }
    copy(r, &v, 0);
    q
}

// The same down to x^w, l at a time, the short chunk last. l is not in the result. Whole words have a loop of their own, and only there the
// words that are 0 are left out: a loop that took all would not be held in registers.
fn feed_top(r: &mut Row, t: &[u64], s: &[u8], n: usize, w: usize, l: usize, p: usize)
    requires { (length t.now ≡ 3072) × (p < 768) × (value 64 r.old ≡ 0) × (w ≤ n) × (n < 1000000)
        × MovedUp t.now p × (1 ≤ l) × (l ≤ 64) }
    ensures { Reduced t.now (value 8 s.now % 2 ^ n / 2 ^ w * 2 ^ D) (value 64 r.new) }
{
    let mut v = [0u64; 13];
    let mut q = n;
    let mut most = l;
    if l == 64 {
        q = feed_words(&mut v, t, s, n, w, p);
        most = 63;
    }
    // A `while`: the last chunk is shorter, and the steps of a range are all equal.
    while w < q {
        let k = most.min(q - w);
        q -= k;
        let u = bits(s, q, k);
        step_part(&mut v, t, u, k);
    }
    copy(r, &v, 0);
}

// The k lowest coefficients of s are added.
pub fn add_low(r: &mut Row, s: &[u8], k: usize)
    requires { k ≤ 768 }
    ensures { (value 64 r.new ≡ xor (value 64 r.old) (value 8 s.now % 2 ^ k)) × Bounded 64 r.new }
{
    let c = k / 64;
    for j in 0..c {
        r[j] ^= bits(s, 64 * j, 64);
    }
    if k % 64 != 0 {
        r[c] ^= bits(s, 64 * c, k % 64);
    }
}

// The remainder of the n lowest coefficients of s by the generator itself, of degree w = 768 - p, in the lowest words of r: what stands
// from x^w on is fed, and the register is moved down; what stands below is its own remainder.
pub fn remainder_of(r: &mut Row, t: &[u64], s: &[u8], n: usize, l: usize, p: usize)
    requires { (length t.now ≡ 3072) × (1 ≤ l) × (l ≤ 64) × (p < 768) × (n < 1000000) × MovedUp t.now p }
    ensures { RemainderBy t.now p (value 8 s.now % 2 ^ n) (value 64 r.new) × Bounded 64 r.new }
{
    let w = 768 - p;
    clear(r);
    if n <= w {
        add_low(r, s, n);
    } else {
        feed_top(r, t, s, n, w, l, p);
        lower(r, p);
        add_low(r, s, w);
    }
}
