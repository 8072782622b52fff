// The table of a generator of degree 768, row by row: row n is the remainder of x^768 times the digit n % 16 at the place n / 16 of a word.
// At each place the rows of the digits 1, 2, 4 and 8 are a row of digit 1 moved up by at most four places, in which the rows of place 0
// reduce what passes x^768; each other row is the sum of two. A row is made aside and then put: no store stands between two loads, and
// the loops end with the row's length, so that compiled they take two words at a time.
ghost use Rattle.std.specs.Prelude.{◌≡◌, ◌+◌, ◌-◌, ◌*◌, ◌%◌, ◌^◌, ◌≤◌, ◌<◌, length, get_or};
ghost use Rattle.polynomial.specs.Digits.{value};
ghost use Rattle.polynomial.specs.Division.{Deg};
ghost use Rattle.polynomial.specs.Xor.{xor};
ghost use Rattle.kernels.specs.Row.{D};
ghost use Rattle.reduction.specs.Build.{Begun, Grown, PowerOfTwo, Put};
ghost use Rattle.reduction.specs.Table.{hex, row_at, Table};

use kernels::row::Row;

// The row at `at` is set to 0.
fn clear_row(t: &mut [u64], at: usize)
    requires { (length t.old ≡ 3072) × (at + 12 ≤ 3072) }
    ensures { Put t.old t.new at 0 }
{
    t[at..at + 12].fill(0);
}

// The row at `at` is set to v. A slice: `build` has the lower 12 of 13 words.
fn put_row(t: &mut [u64], v: &[u64], at: usize)
    requires { (length t.old ≡ 3072) × (length v.now ≡ 12) × (at + 12 ≤ 3072) }
    ensures { Put t.old t.new at (value 64 v.now) }
{
    // Not `copy_from_slice`: the row then goes through memory, and a write by two tables takes 5.4 µs in place of 2.4.
    for j in 0..v.len() {
        t[at + j] = v[j];
    }
}

// The row at `at` is added into v.
fn add_row(v: &mut [u64; 12], t: &[u64], at: usize)
    requires { (length t.now ≡ 3072) × (at + 12 ≤ 3072) }
    ensures { value 64 v.new ≡ xor (value 64 v.old) (row_at t.now at) }
{
    for j in 0..v.len() {
        v[j] ^= t[at + j];
    }
}

// The row at `at`, moved up by s places, is added into v; what passes x^768 is lost. The word that stands before the row is 0, so that
// the lowest word is no case of its own.
fn add_moved(v: &mut [u64; 12], t: &[u64], at: usize, s: usize)
    requires { (length t.now ≡ 3072) × (1 ≤ at) × (at + 12 ≤ 3072) × (get_or t.now (at - 1) 0 ≡ 0)
        × (1 ≤ s) × (s < 64) }
    ensures { value 64 v.new ≡ xor (value 64 v.old) (row_at t.now at * 2 ^ s % 2 ^ D) }
{
    for j in 0..v.len() {
        v[j] ^= (t[at + j] << s) ^ (t[at + j - 1] >> (64 - s));
    }
}

// Row n, the sum of the rows a and b.
fn sum_row(t: &mut [u64], a: usize, b: usize, n: usize)
    requires { Begun t.old n × (n < 256) × (a < n) × (b < n) × (hex n ≡ xor (hex a) (hex b)) }
    ensures { Grown t.old t.new n (n + 1) }
{
    let mut v = [0u64; 12];
    add_row(&mut v, t, a * 12);
    add_row(&mut v, t, b * 12);
    put_row(t, &v, n * 12);
}

// Row n, the row i of a digit 1 moved up by s places, what passes x^768 reduced. Row i - 1, of a digit 0, stands before it.
fn move_row(t: &mut [u64], i: usize, s: usize, n: usize)
    requires { Begun t.old n × (n < 256) × (i < n) × (i % 16 ≡ 1) × (1 ≤ s) × (s ≤ 4) × (2 ^ s ≤ n) × (hex n ≡ hex i * 2 ^ s) }
    ensures { Grown t.old t.new n (n + 1) }
{
    let at = i * 12;
    let top = (t[at + 11] >> (64 - s)) as usize;
    let mut v = [0u64; 12];
    add_row(&mut v, t, top * 12);
    add_moved(&mut v, t, at, s);
    put_row(t, &v, n * 12);
}

// At place k the rows of the digits m + 1 to 2 m - 1, from those up to m.
fn fill(t: &mut [u64], k: usize, m: usize)
    requires { Begun t.old (16 * k + m + 1) × (k < 16) × (1 ≤ m) × (m ≤ 8) × PowerOfTwo m }
    ensures { Grown t.old t.new (16 * k + m + 1) (16 * k + m + m) }
{
    for b in 1..m {
        sum_row(t, 16 * k + b, 16 * k + m, 16 * k + m + b);
    }
}

// At place k the rows of the digits 2 to 15, from those of 0 and 1.
fn fill_place(t: &mut [u64], k: usize)
    requires { Begun t.old (16 * k + 2) × (k < 16) }
    ensures { Grown t.old t.new (16 * k + 2) (16 * k + 16) }
{
    for s in 1..4 {
        let m = 1 << s;
        move_row(t, 16 * k + 1, s, 16 * k + m);
        fill(t, k, m);
    }
}

// The 16 rows of place k, from those of the place before.
fn place(t: &mut [u64], k: usize)
    requires { Begun t.old (16 * k) × (1 ≤ k) × (k < 16) }
    ensures { Grown t.old t.new (16 * k) (16 * k + 16) }
{
    clear_row(t, 192 * k);
    move_row(t, 16 * k - 15, 4, 16 * k + 1);
    fill_place(t, k);
}

// The table of the generator g.
pub fn build(t: &mut [u64], g: &Row)
    requires { (length t.old ≡ 3072) × Deg (value 64 g.now) D }
    ensures { Table (value 64 g.now) t.new }
{
    clear_row(t, 0);
    put_row(t, &g[..12], 12);
    fill_place(t, 0);
    for k in 1..16 {
        place(t, k);
    }
}
