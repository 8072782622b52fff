// Elements of the three fields, as numbers below 2^q: sums, products and powers, by tables of powers and logs.
#![tactic(auto)]

ghost use Rattle.std.specs.Prelude.{◌≡◌, ◌+◌, ◌-◌, ◌%◌, ◌^◌, ◌<◌, length};
ghost use Rattle.field.specs.Elements.{times, power};
ghost use Rattle.field.specs.Fields.{Known};
ghost use Rattle.polynomial.specs.Xor.{xor};
ghost use Rattle.element.specs.Exponents.{raise};
ghost use Rattle.element.specs.Fields.{MadeOf, Sized, answer_number, error_number, field_at, is_field};
ghost use Rattle.element.specs.Lent.{RootIn, LogIn, Tables};
ghost use Rattle.element.specs.Operations.{zero_of, one_of, alpha_of, refusal, Gives};

use tables::{logs4, logs8, logs12, powers4, powers8, powers12};

// An element of a field: a number below 2^q, whose bit k is the coefficient of x^k.
#[derive(Clone, Copy, Debug, PartialEq, Eq)]
pub struct Element(pub u16);

impl Element {
    pub const ZERO: Element = Element(0);

    pub const ONE: Element = Element(1);

    pub const ALPHA: Element = Element(2);
}

// A field GF(2^q): its field polynomial (bit k is the coefficient of x^k), its size 2^q, and the order 2^q - 1 of alpha.
#[derive(Clone, Copy, Debug, PartialEq, Eq)]
pub struct Field {
    pub q: u32,
    pub polynomial: u32,
    pub size: u32,
    pub order: u32,
}

// The table from q to its field.
pub const FIELDS: [Field; 3] = [
    Field {
        q: 4,
        polynomial: 19,
        size: 16,
        order: 15,
    },
    Field {
        q: 8,
        polynomial: 285,
        size: 256,
        order: 255,
    },
    Field {
        q: 12,
        polynomial: 4179,
        size: 4096,
        order: 4095,
    },
];

// Why there is no field or no element, by the requirement's numbers.
#[derive(Clone, Copy, Debug, PartialEq, Eq)]
pub enum FieldError {
    NoField = 1, // q is not 4, 8 or 12, or the numbers are not its field's
    NoElement = 8, // an operand has a bit at q or above
}

impl FieldError {
    pub fn number(self) -> u8
        ensures { result ≡ error_number self }
    {
        self as u8
    }
}

// On lent tables: those of the field, with any entries after them, of which nothing is read.

// The power e of alpha.
pub fn root(powers: &[u16], e: u32) -> u32
    requires { e < length powers.now }
    ensures { RootIn powers.now e result }
{
    powers[e as usize] as u32
}

// The exponent of a, an element above 0.
pub fn log(logs: &[u16], a: u32) -> u16
    requires { a < length logs.now }
    ensures { LogIn logs.now a result }
{
    logs[a as usize]
}

// s modulo n, for s below 2 n.
pub fn modulo(n: u32, s: u32) -> u32
    requires { s < n + n }
    ensures { (result ≡ s % n) × (result < n) }
{
    if s < n { s } else { s - n }
}

// The log of the product of two elements with the logs i and j: their sum modulo n = 2^q - 1. The sum is at most 8,188, and
// 16 bits hold it. The test is of i against n - j, so that it does not wait for the sum.
pub fn add_logs(f: Field, i: u16, j: u16) -> u16
    requires { Sized f × (i < 2 ^ f.q - 1) × (j < 2 ^ f.q - 1) }
    ensures { result ≡ (i + j) % (2 ^ f.q - 1) }
{
    let k = i + j;
    let left = f.order as u16 - j;
    if i < left { k } else { i - left }
}

// The product a b.
pub fn times_lent(powers: &[u16], logs: &[u16], f: Field, a: u32, b: u32) -> u32
    requires { Tables f powers.now logs.now × (a < 2 ^ f.q) × (b < 2 ^ f.q) }
    ensures { result ≡ times f.q a b }
{
    if a == 0 || b == 0 {
        return 0;
    }
    let i = log(logs, a);
    let j = log(logs, b);
    let e = add_logs(f, i, j);
    root(powers, e as u32)
}

// The power a^k.
pub fn raise_lent(powers: &[u16], logs: &[u16], f: Field, a: u32, k: u32) -> u32
    requires { Tables f powers.now logs.now × (a < 2 ^ f.q) }
    ensures { result ≡ raise f.q a k }
{
    if k == 0 {
        return 1;
    }
    if a == 0 {
        return 0;
    }
    let i = log(logs, a) as u64;
    let n = f.order as u64;
    let e = i * (k as u64) % n;
    root(powers, e as u32)
}

// The same by the tables of the field.

// `work` called with the field's powers and logs: by `&mut`, so that the contract says what it writes to what it captured.
pub fn with_tables<R, W: FnMut(&[u16], &[u16]) -> R>(f: Field, work: &mut W) -> R
    requires { Sized f × ((powers logs : _) → Tables f powers.now logs.now → W.pre work.old powers logs) }
    ensures { (powers : _) × (logs : _) × Tables f powers.now logs.now × W.step work.old powers logs result work.new }
{
    match f.q {
        4 => work(&powers4(), &logs4()),
        8 => work(&powers8(), &logs8()),
        _ => work(&powers12(), &logs12()),
    }
}

fn times_in(f: Field, a: u32, b: u32) -> u32
    requires { Sized f × (a < 2 ^ f.q) × (b < 2 ^ f.q) }
    ensures { result ≡ times f.q a b }
{
    with_tables(f, &mut |powers, logs| times_lent(powers, logs, f, a, b))
}

fn raise_in(f: Field, a: u32, k: u32) -> u32
    requires { Sized f × (a < 2 ^ f.q) }
    ensures { result ≡ raise f.q a k }
{
    with_tables(f, &mut |powers, logs| raise_lent(powers, logs, f, a, k))
}

impl Field {
    // The field of q, for any number.
    pub fn make(q: u32) -> Result<Field, FieldError>
        ensures { MadeOf q result }
    {
        FIELDS
            .iter()
            .find(|f| f.q == q)
            .copied()
            .ok_or(FieldError::NoField)
    }

    // The field of a q that has one.
    pub fn of(q: u32) -> Field
        requires { Known q }
        ensures { result ≡ field_at q }
    {
        match q {
            4 => FIELDS[0],
            8 => FIELDS[1],
            _ => FIELDS[2],
        }
    }

    // These four numbers are a field's.
    pub fn known(self) -> bool
        ensures { result ≡ is_field self }
    {
        Field::make(self.q).is_ok_and(|e| self == e)
    }

    pub fn zero(self) -> Element
        ensures { result.0 ≡ zero_of self.q }
    {
        Element::ZERO
    }

    pub fn one(self) -> Element
        ensures { result.0 ≡ one_of self.q }
    {
        Element::ONE
    }

    pub fn alpha(self) -> Element
        ensures { result.0 ≡ alpha_of self.q }
    {
        Element::ALPHA
    }

    // Are these a field and two of its elements?
    fn test(self, a: Element, b: Element) -> Result<(), FieldError>
        ensures { answer_number result ≡ refusal self a.0 b.0 }
    {
        if !self.known() {
            return Err(FieldError::NoField);
        }
        if self.size <= a.0 as u32 || self.size <= b.0 as u32 {
            return Err(FieldError::NoElement);
        }
        Ok(())
    }

    pub fn sum(self, a: Element, b: Element) -> Result<Element, FieldError>
        ensures { Gives (refusal self a.0 b.0) (xor a.0 b.0) result }
    {
        self.test(a, b)?;
        Ok(Element(a.0 ^ b.0))
    }

    pub fn product(self, a: Element, b: Element) -> Result<Element, FieldError>
        ensures { Gives (refusal self a.0 b.0) (times self.q a.0 b.0) result }
    {
        self.test(a, b)?;
        let r = times_in(self, a.0 as u32, b.0 as u32);
        Ok(Element(r as u16))
    }

    // a^k
    pub fn power(self, a: Element, k: u32) -> Result<Element, FieldError>
        ensures { Gives (refusal self a.0 0) (raise self.q a.0 k) result }
    {
        self.test(a, Element::ZERO)?;
        let r = raise_in(self, a.0 as u32, k);
        Ok(Element(r as u16))
    }

    // alpha^k
    pub fn alpha_power(self, k: u32) -> Result<Element, FieldError>
        ensures { Gives (refusal self 0 0) (power self.q k) result }
    {
        self.power(Element::ALPHA, k)
    }
}
