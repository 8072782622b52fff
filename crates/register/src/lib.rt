// The register: opened empty at a level, then fed coefficients, highest power first.
// Each feeding hands back the register that the next one takes.
#![tactic(auto)]

ghost use Rattle.std.specs.Prelude.{◌≡◌, ◌+◌, ◌*◌, ◌^◌, ◌≤◌, ◌<◌, length};
ghost use Rattle.polynomial.specs.Digits.{value, digits};
ghost use Rattle.polynomial.specs.Xor.{xor};
ghost use Rattle.code.specs.Calls.{empty, generators};
ghost use Rattle.code.specs.Code.{degree, remainder};
ghost use Rattle.code.specs.Parameters.{Accepted};
ghost use Rattle.register.specs.Register.{value_of, refused_with, OpenedAs, FedAs};

use code::{Outcome, Parameters, Refusal};
use kernels::row::Row;

// A level, the count of coefficients taken, and the remainder by the level's generator in 12 words, lowest first.
#[derive(Clone, Copy)]
pub struct Register {
    pub level: u32,
    pub count: u64,
    pub remainder: [u64; 12],
}

// What opening and feeding hand back: the outcome beside the register. No Result with the register in its Ok: the definitions `opened` and
// `fed` (code: Calls) hand back a register beside a refusal too.
#[derive(Clone, Copy)]
pub struct Fed {
    pub outcome: Outcome,
    pub register: Register,
}

// ---- the remainder

// The 12 lower words of a row.
fn low_words(r: &Row) -> [u64; 12]
    ensures { result ≡ digits 64 12 (value 64 r.now) }
{
    let mut low = [0u64; 12];
    low.copy_from_slice(&r[..12]);
    low
}

// The remainder of f x^l + u by level a's generator, of degree w; f lies below x^w.
fn advance(
    p: Parameters,
    rows: [[u64; 13]; 4],
    a: usize,
    w: usize,
    f: [u64; 12],
    u: u64,
    l: usize,
) -> [u64; 12]
    requires { Accepted p × (rows ≡ generators p) × (a ≤ p.v) × (w ≡ degree p a) × (value 64 f < 2 ^ w) × (1 ≤ l) × (l ≤ 64) }
    ensures { result ≡ digits 64 12 (remainder p a (xor (value 64 f * 2 ^ l) u)) }
{
    let mut t = [0u64; 3072];
    levels::prepare(&mut t, p, rows, a, w);
    let mut r = [0u64; 13];
    kernels::row::align(&mut r, &f, w);
    reduction::remainder::step(&mut r, &t, u, l, 768 - w);
    kernels::row::lower(&mut r, 768 - w);
    low_words(&r)
}

impl Register {
    // Nothing taken yet.
    fn empty(level: u32) -> Register
        ensures { value_of result ≡ empty level }
    {
        Register {
            level,
            count: 0,
            remainder: [0u64; 12],
        }
    }

    // The register as it is, beside a refusal.
    fn refused(self, e: Refusal) -> Fed
        ensures { result ≡ refused_with e self }
    {
        Fed {
            outcome: Err(e),
            register: self,
        }
    }

    // The empty register of a level; beside a refusal that of level 0.
    pub fn open(p: Parameters, level: u32) -> Fed
        ensures { OpenedAs p level result }
    {
        if let Err(e) = refusal::open_refusal(p, level) {
            return Register::empty(0).refused(e);
        }
        Fed {
            outcome: Ok(()),
            register: Register::empty(level),
        }
    }

    // Feeding, for accepted parameters.
    fn feed_accepted(self, p: Parameters, width: u32, u: u64) -> Fed
        requires { Accepted p }
        ensures { FedAs p width self u result }
    {
        let level = self.level;
        let count = self.count;
        if let Err(e) = refusal::numbers_refusal(p, width, level, count, u) {
            return self.refused(e);
        }
        let a = level as usize;
        let rows = levels::rows(p);
        let w = levels::degree_at(p, rows, a) as usize;
        let f = self.remainder;
        let mut next = self;
        next.count = count + width as u64;
        if !refusal::remainder_fits(&f, w) {
            return self.refused(Refusal::Register);
        }
        let g = advance(p, rows, a, w, f, u, width as usize);
        next.remainder = g;
        Fed {
            outcome: Ok(()),
            register: next,
        }
    }

    // The coefficients in u's `width` low bits, greatest first, are taken in; beside a refusal the register stands as it came.
    pub fn feed(self, p: Parameters, width: u32, u: u64) -> Fed
        ensures { FedAs p width self u result }
    {
        if let Err(e) = refusal::sheet_refusal(p) {
            return self.refused(e);
        }
        self.feed_accepted(p, width, u)
    }
}
