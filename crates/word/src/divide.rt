// Remainders and quotients by a row of any degree up to 768.
ghost use Rattle.std.specs.Prelude.{◌≡◌, ◌+◌, ◌%◌, ◌^◌, ◌≤◌, ◌<◌, length};
ghost use Rattle.polynomial.specs.Digits.{value};
ghost use Rattle.polynomial.specs.Division.{Deg, rem, quot};
ghost use Rattle.kernels.specs.Row.{D};
ghost use Rattle.kernels.specs.Value.{Bounded};
ghost use Rattle.word.specs.Quotient.{Stepped};

use kernels::row::{Row, add, align, clear, insert, shift};
use reduction::remainder::remainder_of;
use reduction::table::build;

// The remainder of the n lowest coefficients of s by g, of degree w. A g of degree 0 is 1, and all is a multiple of it.
pub fn remainder_by(r: &mut Row, g: &[u64], w: usize, s: &[u8], n: usize)
    requires { Deg (value 64 g.now) w × (w ≤ 768) × (n < 1000000) }
    ensures { (value 64 r.new ≡ rem (value 64 g.now) w (value 8 s.now % 2 ^ n)) × Bounded 64 r.new }
{
    if w == 0 {
        clear(r);
        return;
    }
    let mut a = [0u64; 13];
    align(&mut a, g, w);
    let mut t = [0u64; 3072];
    build(&mut t, &a);
    remainder_of(r, &t, s, n, 64, 768 - w);
}

// One more coefficient of the quotient q: the rest r is moved up, and where it reaches the degree of g, 768, g is taken away.
fn divide_step(q: &mut Row, r: &mut Row, g: &Row)
    requires { Deg (value 64 g.now) D
        × (value 64 q.old < 2 ^ D) × (value 64 r.old < 2 ^ D) }
    ensures { Stepped (value 64 g.now) (value 64 q.old) (value 64 r.old) (value 64 q.new)
        (value 64 r.new) × Bounded 64 q.new }
{
    shift(q, 1);
    shift(r, 1);
    if r[12] != 0 {
        insert(q, 1, 0);
        add(r, g);
    }
}

// The quotient of f, of degree u, by g, of degree w.
pub fn quotient(q: &mut Row, f: &[u64], u: usize, g: &[u64], w: usize)
    requires { Deg (value 64 f.now) u × Deg (value 64 g.now) w × (w ≤ u) × (u ≤ 768) }
    ensures { (value 64 q.new ≡ quot (value 64 g.now) w (value 64 f.now)) × Bounded 64 q.new }
{
    let mut a = [0u64; 13];
    align(&mut a, g, w);
    let mut r = [0u64; 13];
    align(&mut r, f, u);
    add(&mut r, &a);
    clear(q);
    insert(q, 1, 0);
    for _ in 0..u - w {
        divide_step(q, &mut r, &a);
    }
}
