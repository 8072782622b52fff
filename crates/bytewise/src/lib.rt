// Remainders with a byte for a digit. A table has a row for each byte of a word, so that a step adds half as many rows as with hex
// digits (reduction::table), of whose rows these are sums. A row has six words: the generator has a degree of at most 384, and moved up
// to degree 768 it is 0 in the six words below. 2,048 rows take 12,288 words, and as long to make as some eight remainders.
#![tactic(auto)]

ghost use Rattle.std.specs.Prelude.{◌≡◌, List, ℕ, ◌+◌, ◌-◌, ◌*◌, ◌/◌, ◌%◌, ◌^◌, ◌≤◌, ◌<◌, length, take};
ghost use Rattle.polynomial.specs.Digits.{value};
ghost use Rattle.polynomial.specs.Xor.{xor};
ghost use Rattle.kernels.specs.Row.{D};
ghost use Rattle.kernels.specs.Value.{Bounded};
ghost use Rattle.reduction.specs.Reduce.{TopAdded};
ghost use Rattle.reduction.specs.Table.{MovedUp, Reduced, RemainderBy, four};
ghost use Rattle.bytewise.specs.Bytes.{half, Six, Wide, Widened, six_at, upper_at};

use kernels::row::Row;

// ---- the table

// The row at `at` is set to the sum of the upper six words of the rows of t at a and c.
fn put_row(b: &mut [u64], t: &[u64], a: usize, c: usize, at: usize)
    requires { (length b.old ≡ 12288) × (length t.now ≡ 3072) × (a + 12 ≤ 3072) × (c + 12 ≤ 3072) × (at + 6 ≤ 12288) }
    ensures { Six b.old b.new at (xor (upper_at t.now a) (upper_at t.now c)) }
{
    for j in 0..6 {
        b[at + j] = t[a + 6 + j] ^ t[c + 6 + j];
    }
}

// The table, from that of hex digits.
pub fn build(b: &mut [u64], t: &[u64])
    requires { (length b.old ≡ 12288) × (length t.now ≡ 3072) × MovedUp t.now half }
    ensures { Widened t.now b.new }
{
    for n in 0..2048 {
        let k = n / 256 * 384;
        put_row(b, t, k + n % 16 * 12, k + 192 + n / 16 % 16 * 12, n * 6);
    }
}

// ---- a step

// Two rows are added into the upper six words of v.
fn add_rows(v: &mut [u64; 12], b: &[u64], a: usize, c: usize)
    requires { (length b.now ≡ 12288) × (a + 6 ≤ 12288) × (c + 6 ≤ 12288) }
    ensures { (value 64 v.new ≡ xor (value 64 v.old) (xor (six_at b.now a) (six_at b.now c) * 2 ^ half))
        × (take 6 v.new ≡ take 6 v.old) }
{
    for j in 0..6 {
        v[6 + j] ^= b[a + j] ^ b[c + j];
    }
}

// Two rows are added, which u's two lowest bytes choose among the 512 rows from 512 k on.
fn add_two(v: &mut [u64; 12], b: &[u64], k: usize, u: u64)
    requires { (length b.now ≡ 12288) × (k < 4) }
    ensures { ((t : List ℕ) → Widened t b.now → value 64 v.new ≡ xor (value 64 v.old) (four t (64 * k) u))
        × (take 6 v.new ≡ take 6 v.old) }
{
    let at = k * 3072;
    let a = at + (u % 256) as usize * 6;
    let c = at + 1536 + (u / 256 % 256) as usize * 6;
    add_rows(v, b, a, c);
}

// The remainder of top · x^768 is added: the rows that top's bytes choose, up to its highest that is not 0.
fn add_top(v: &mut [u64; 12], b: &[u64], top: u64)
    requires { Wide b.now }
    ensures { ((t : List ℕ) → Widened t b.now → TopAdded t (value 64 v.old) top (value 64 v.new))
        × (take 6 v.new ≡ take 6 v.old) }
{
    let mut u = top;
    let mut k: usize = 0;
    // A `while`: it ends where no digit of u is left, and a range has all four places.
    while u != 0 {
        add_two(v, b, k, u);
        u /= 65536;
        k += 1;
    }
}

// One step: a whole word u enters at x^768, the register is moved up, and what passes x^768 is reduced.
// A slice: that each word of r fits at the end is known of a slice, and not of an array after a call.
fn step(r: &mut [u64], b: &[u64], u: u64)
    requires { (length r.old ≡ 13) × (value 64 r.old < 2 ^ D) × (value 64 r.old % 2 ^ half ≡ 0) × Wide b.now }
    ensures { (t : List ℕ) → Widened t b.now
        → Reduced t (xor (value 64 r.old * 2 ^ 64) (u * 2 ^ D)) (value 64 r.new) }
{
    let top = r[11] ^ u;
    let mut v = [0u64; 12];
    reduction::remainder::copy_next(&mut v, r, 6);
    add_top(&mut v, b, top);
    reduction::remainder::copy(r, &v, 6);
}

// ---- a remainder

// The 64 k coefficients of s from x^w on are fed to a register of 0.
fn feed(r: &mut Row, b: &[u64], s: &[u8], k: usize, w: usize)
    requires { (value 64 r.old ≡ 0) × Wide b.now × (k < 1000) × (w < 1000) }
    ensures { (t : List ℕ) → Widened t b.now
        → Reduced t (value 8 s.now % 2 ^ (w + 64 * k) / 2 ^ w * 2 ^ D) (value 64 r.new) }
{
    let mut v = [0u64; 13];
    for i in (0..k).rev() {
        let u = kernels::bits::bits(s, w + 64 * i, 64);
        step(&mut v, b, u);
    }
    reduction::remainder::copy(r, &v, 0);
}

// The remainder of s by the generator itself, of degree w, in the lowest words of r.
pub fn remainder_of(r: &mut Row, b: &[u64], s: &[u8], w: usize)
    requires { Wide b.now × (1 ≤ w) × (w ≤ 384) × (length s.now < 1000) }
    ensures { ((t : List ℕ) → Widened t b.now
        → RemainderBy t (768 - w) (value 8 s.now) (value 64 r.new)) × Bounded 64 r.new }
{
    let n = 8 * s.len();
    kernels::row::clear(r);
    if n <= w {
        reduction::remainder::add_low(r, s, n);
    } else {
        let k = (n - w).div_ceil(64);
        feed(r, b, s, k, w);
        kernels::row::lower(r, 768 - w);
        reduction::remainder::add_low(r, s, w);
    }
}
