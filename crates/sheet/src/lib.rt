// The sheet's test and the nesting coefficient.
#![tactic(auto)]

ghost use Rattle.std.specs.Prelude.{◌≡◌, ◌<◌, ◌≤◌};
ghost use Rattle.code.specs.Code.{N};
ghost use Rattle.code.specs.Calls.{NestingMade};
ghost use Rattle.code.specs.Parameters.{Accepted, unshortened, len, strength, shape_fits, place_fits, strengths_fit, clashes, short_fits, Tests};
ghost use Rattle.element.specs.Fields.{field_at};
ghost use Rattle.sheet.specs.Clashes.{hits, any_from};

use code::{Parameters, Refusal};
use element::Field;

// v is 1 to 3, m is v + 1 to 8.
fn shape_fits(p: Parameters) -> bool
    ensures { result ≡ shape_fits p }
{
    (1..=3).contains(&p.v) && p.v < p.m && p.m <= 8
}

// t_a, 0 past the four places.
pub fn strength_at(p: Parameters, a: u32) -> u32
    ensures { result ≡ strength p a }
{
    match a {
        0 => p.t0,
        1 => p.t1,
        2 => p.t2,
        3 => p.t3,
        _ => 0,
    }
}

// Up to v the strengths do not fall, past v they are 0.
fn place_fits(p: Parameters, a: u32) -> bool
    requires { 1 ≤ a }
    ensures { result ≡ place_fits p a }
{
    let t = strength_at(p, a);
    if a <= p.v {
        strength_at(p, a - 1) <= t
    } else {
        t == 0
    }
}

// The rules on the strengths; n is the length of the code.
fn strengths_fit(p: Parameters, n: u32) -> bool
    requires { (n ≡ len p) × (1 ≤ n) }
    ensures { result ≡ strengths_fit p }
{
    let t = strength_at(p, p.v);
    1 <= p.t0 && p.t0 < p.t1 && place_fits(p, 2) && place_fits(p, 3) && t <= 64 && 2 * t <= n - 1
}

// Some d × j is a multiple of n, j from 1 to last. Where no product comes to n there is none.
fn clash_at(d: u32, n: u32, last: u32) -> bool
    requires { (1 ≤ d) × (d < n) × (n < 4096) × (last ≤ 128) }
    ensures { result ≡ any_from (hits n d) 1 last }
{
    if d * last < n {
        return false;
    }
    let mut x = d;
    for _ in 1..=last {
        if x == 0 {
            return true;
        }
        x = element::modulo(n, x + d);
    }
    false
}

// Some d × j is a multiple of n, d from 1 to m - 1, j from 1 to 2 t_v.
fn clashes_at(p: Parameters, n: u32) -> bool
    requires { (n ≡ len p) × (8 < n) × (n < 4096) × (1 ≤ p.m) × (p.m ≤ 8) × (strength p p.v ≤ 64) }
    ensures { result ≡ clashes p }
{
    let t = strength_at(p, p.v);
    (1..p.m).any(|d| clash_at(d, n, 2 * t))
}

// s leaves every block a bit. The other rules hold; at s = 0 the degree w_v is not asked for.
fn short_fits(p: Parameters, f: Field) -> bool
    requires { Accepted (unshortened p) × (f ≡ field_at p.q) }
    ensures { result ≡ short_fits p }
{
    let t = strength_at(p, p.v);
    p.s == 0 || p.s <= f.order - generator_rows::degree(f, t as usize) - 1
}

// The parameters, or the first rule that they break.
pub fn test(p: Parameters) -> Result<Parameters, Refusal>
    ensures { Tests p result }
{
    let Ok(f) = Field::make(p.q) else {
        return Err(Refusal::Field);
    };
    if !shape_fits(p) {
        return Err(Refusal::Shape);
    }
    let n = f.order;
    if !strengths_fit(p, n) {
        return Err(Refusal::Strengths);
    }
    if clashes_at(p, n) {
        return Err(Refusal::Clash);
    }
    if !short_fits(p, f) {
        return Err(Refusal::Shortening);
    }
    Ok(p)
}

// The nesting coefficient N(i, l), bit k the coefficient of x^k; i falls.
pub fn nest(i: usize, l: usize) -> u64
    requires { (i < 8) × (l < 8) }
    ensures { result ≡ N i l }
{
    if l == 0 {
        return 1;
    }
    if i < l {
        return 0;
    }
    let a = nest(i - 1, l - 1);
    let b = nest(i - 1, l);
    a ^ (b << l)
}

// N(i, l) for i and l up to 7, a refusal above.
pub fn nesting_coefficient(i: usize, l: usize) -> Result<u64, Refusal>
    ensures { NestingMade i l result }
{
    if 7 < i || 7 < l {
        return Err(Refusal::Index);
    }
    Ok(nest(i, l))
}
