// A program's input, read; its head, which is q, m, v, L, then t_0 to t_v if v is 1 to 3, a missing byte counting as 0; what
// stands behind it; and a program's output.
#![tactic(auto)]

ghost use Rattle.std.specs.Prelude.{◌≡◌, ◌≤◌, ◌<◌, ◌∷◌, IfOk, length, replicate, take};
ghost use Rattle.std.specs.Io.KnownBytes.{Consumes, IsAtEnd};
ghost use Rattle.code.specs.Writer.{lead, sheet_given, strength_given, strengths_given};
ghost use Rattle.given.specs.Input.{Begins};

use code::Parameters;
use std::io;
use std::io::Read;

// ---- reading

// Reads until buf is full or the input ends, and says how many bytes it put at buf's start.
pub fn read_full<R: Read>(input: &mut R, buf: &mut [u8]) -> io::Result<usize>
    ensures bound { IfOk result (λ n. n ≤ length buf.new) }
    ensures bytes { IfOk result (λ n. Consumes (R.remaining input.old) (R.remaining input.new) (take n buf.new)) }
    ensures end { IfOk result (λ n. n < length buf.new → IsAtEnd (R.remaining input.new)) }
{
    let mut done = 0;
    // A `while`: `done` grows by what a read gives.
    while done < buf.len() {
        let n = input.read(&mut buf[done..])?;
        if n == 0 {
            return Ok(done);
        }
        done += n;
    }
    Ok(done)
}

// ---- the input's parts

// Leading byte k, 0 where it is missing.
pub fn lead(input: &[u8], k: usize) -> u32
    ensures { result ≡ lead input.now k }
{
    input.get(k).map_or(0, |b| u32::from(*b))
}

// How many strengths there are: v + 1 if v is 1 to 3, else none.
fn strengths_given(input: &[u8]) -> usize
    ensures { result ≡ strengths_given input.now }
{
    match lead(input, 2) {
        v @ 1..=3 => v as usize + 1,
        _ => 0,
    }
}

// t_a, 0 where there is none.
fn strength_given(input: &[u8], a: usize) -> u32
    ensures { result ≡ strength_given input.now a }
{
    let many = strengths_given(input);
    if a < many { lead(input, 4 + a) } else { 0 }
}

// The parameters. No sub-word is shortened: s is 0.
pub fn sheet_given(input: &[u8]) -> Parameters
    ensures { result ≡ sheet_given input.now }
{
    Parameters {
        q: lead(input, 0),
        m: lead(input, 1),
        v: lead(input, 2),
        t0: strength_given(input, 0),
        t1: strength_given(input, 1),
        t2: strength_given(input, 2),
        t3: strength_given(input, 3),
        s: 0,
    }
}

// Where the rest begins; the end if there is none.
pub fn rest_begins(input: &[u8]) -> usize
    ensures { Begins input.now result }
{
    let many = strengths_given(input);
    input.len().min(4 + many)
}

// ---- the output

// The first `count` bytes are written; the rest is 0.
#[derive(Drop)]
pub struct Output {
    pub count: usize,
    pub bytes: [u8; 4097],
}

// 4,097 bytes, all 0.
pub fn zeros() -> [u8; 4097]
    ensures { result ≡ replicate 4097 0 }
{
    [0; 4097]
}

// One byte, the number.
pub fn refused(k: u8) -> Output
    ensures { (result.count ≡ 1) × (result.bytes ≡ k ∷ replicate 4096 0) }
{
    let mut bytes = [0; 4097];
    bytes[0] = k;
    Output { count: 1, bytes }
}
