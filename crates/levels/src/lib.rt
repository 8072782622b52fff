// The levels of a sheet: their generators, read from the constant tables, their degrees, and tables for remainders.
#![tactic(auto)]

ghost use Rattle.std.specs.Prelude.{◌≡◌, ◌+◌, ◌^◌, ◌<◌, ◌≤◌, length};
ghost use Rattle.code.specs.Calls.{generators};
ghost use Rattle.code.specs.Parameters.{Accepted};
ghost use Rattle.code.specs.Code.{degree, remainder};
ghost use Rattle.polynomial.specs.Digits.{value};
ghost use Rattle.kernels.specs.Value.{Bounded};
ghost use Rattle.layout.specs.Sizes.{Degrees};
ghost use Rattle.levels.specs.Ready.{Prepared};

use code::Parameters;
use element::Field;
use kernels::row::Row;

// The rows of an accepted sheet's generators, by level; rows past v are 0.
pub fn rows(p: Parameters) -> [[u64; 13]; 4]
    requires { Accepted p }
    ensures { result ≡ generators p }
{
    let f = Field::of(p.q);
    let mut out = [[0u64; 13]; 4];
    out[0] = generator_rows::generator_row(f, p.t0 as usize);
    out[1] = generator_rows::generator_row(f, p.t1 as usize);
    if p.v < 2 {
        return out;
    }
    out[2] = generator_rows::generator_row(f, p.t2 as usize);
    if p.v < 3 {
        return out;
    }
    out[3] = generator_rows::generator_row(f, p.t3 as usize);
    out
}

// The same for any numbers; the rows of a refused sheet are 0.
pub fn generators_of(p: Parameters) -> [[u64; 13]; 4]
    ensures { result ≡ generators p }
{
    match sheet::test(p) {
        Ok(_) => rows(p),
        Err(_) => [[0u64; 13]; 4],
    }
}

// ---- degrees, and tables for remainders

// The degree of level a's generator.
pub fn degree_at(p: Parameters, rows: [[u64; 13]; 4], a: usize) -> u32
    requires { Accepted p × (rows ≡ generators p) × (a ≤ p.v) }
    ensures { result ≡ degree p a }
{
    let g = rows[a];
    let d = kernels::row::degree_of(&g);
    d as u32
}

// The degrees of all levels, 0 past v.
pub fn degrees(p: Parameters, rows: [[u64; 13]; 4]) -> [u32; 4]
    requires { Accepted p × (rows ≡ generators p) }
    ensures { Degrees p result }
{
    let v = p.v as usize;
    let mut w = [0u32; 4];
    for a in 0..=v {
        w[a] = degree_at(p, rows, a);
    }
    w
}

// The table of level a's generator, of degree w.
pub fn prepare(t: &mut [u64], p: Parameters, rows: [[u64; 13]; 4], a: usize, w: usize)
    requires { Accepted p × (rows ≡ generators p) × (a ≤ p.v) × (w ≡ degree p a) × (length t.old ≡ 3072) }
    ensures { Prepared p a t.new }
{
    let g = rows[a];
    let mut r = [0u64; 13];
    kernels::row::align(&mut r, &g, w);
    reduction::table::build(t, &r);
}

// The remainder of the word s, of n places at most, by level a's generator, whose table is t.
pub fn remainder_at(r: &mut Row, t: &[u64], s: &[u8], n: usize, p: Parameters, a: usize, w: usize)
    requires { Accepted p × (a ≤ p.v) × (w ≡ degree p a) × Prepared p a t.now × (n < 4096) × (value 8 s.now < 2 ^ n) }
    ensures { (value 64 r.new ≡ remainder p a (value 8 s.now)) × Bounded 64 r.new }
{
    reduction::remainder::remainder_of(r, t, s, n, 64, 768 - w);
}
