// The quote at the counter: standard input has q, m, v, then, if v is 1 to 3, t_0 to t_v, a byte each, and s in two, low byte
// first; a missing byte counts as 0.
// It writes, as text, the sheet and then the check bits of each level, the data bits of each block, the bytes of blocks and page,
// and the distance, or the refusal.
#![tactic(auto)]

ghost use Rattle.std.specs.Prelude.{◌≡◌, ◌+◌, ◌*◌, ◌<◌};
ghost use Rattle.quote.specs.Given.{shortening_read, strength_read, sheet_read};

use code::{Parameters, Refusal};
use std::io;
use std::io::Write;

// ---- the input

// t_a, 0 where there is none.
fn strength_given(input: [u8; 9], a: usize) -> u32
    requires { a < 4 }
    ensures { result ≡ strength_read input a }
{
    let v = input[2] as usize;
    if v < 1 {
        return 0;
    }
    if 3 < v {
        return 0;
    }
    if v < a {
        return 0;
    }
    input[3 + a] as u32
}

// A number in two bytes, low byte first.
fn pair(low: u8, high: u8) -> u32
    ensures { result ≡ low + 256 * high }
{
    u32::from(u16::from_le_bytes([low, high]))
}

// s, 0 where there is none.
fn shortening_given(input: [u8; 9]) -> u32
    ensures { result ≡ shortening_read input }
{
    match input[2] as usize {
        v @ 1..=3 => pair(input[4 + v], input[5 + v]),
        _ => 0,
    }
}

// The parameters.
fn sheet_given(input: [u8; 9]) -> Parameters
    ensures { result ≡ sheet_read input }
{
    Parameters {
        q: input[0] as u32,
        m: input[1] as u32,
        v: input[2] as u32,
        t0: strength_given(input, 0),
        t1: strength_given(input, 1),
        t2: strength_given(input, 2),
        t3: strength_given(input, 3),
        s: shortening_given(input),
    }
}

// ---- lines

fn text(rt: &impl Print, s: &[u8]) -> io::Result<()> {
    io::writer(rt).write_all(s)
}

fn number(rt: &impl Print, n: u64) -> io::Result<()> {
    print!(rt; " {n}")
}

// A number of the quote, unless it is 0: spare places are, and no other.
fn shown(rt: &impl Print, n: u16) -> io::Result<()> {
    if n != 0 {
        number(rt, n as u64)?;
    }
    Ok(())
}

// A strength; 0 is none.
fn strength(rt: &impl Print, t: u32) -> io::Result<()> {
    if t != 0 {
        number(rt, t as u64)?;
    }
    Ok(())
}

fn sheet(rt: &impl Print, p: Parameters) -> io::Result<()> {
    text(rt, b"sheet: q")?;
    number(rt, p.q as u64)?;
    text(rt, b", m")?;
    number(rt, p.m as u64)?;
    text(rt, b", v")?;
    number(rt, p.v as u64)?;
    text(rt, b", t")?;
    for t in [p.t0, p.t1, p.t2, p.t3] {
        strength(rt, t)?;
    }
    if p.s != 0 {
        text(rt, b", s")?;
        number(rt, p.s as u64)?;
    }
    text(rt, b"\n")
}

fn size(rt: &impl Print, name: &[u8], r: Result<usize, Refusal>, unit: &[u8]) -> io::Result<()> {
    if let Ok(n) = r {
        text(rt, name)?;
        number(rt, n as u64)?;
        text(rt, unit)?;
    }
    Ok(())
}

// The number, and the word of the table of refusals: a quote has these alone.
fn refused(rt: &impl Print, e: Refusal) -> io::Result<()> {
    text(rt, b"refused")?;
    number(rt, e.number() as u64)?;
    match e {
        Refusal::Field => text(rt, b": field\n"),
        Refusal::Shape => text(rt, b": shape\n"),
        Refusal::Strengths => text(rt, b": strengths\n"),
        Refusal::Clash => text(rt, b": clash\n"),
        Refusal::Shortening => text(rt, b": shortening\n"),
        _ => Ok(()),
    }
}

fn quoted(rt: &impl Print, p: Parameters, list: [u16; 12]) -> io::Result<()> {
    text(rt, b"check bits of each level:")?;
    for n in &list[..4] {
        shown(rt, *n)?;
    }
    text(rt, b"\ndata bits of each block:")?;
    for n in &list[4..] {
        shown(rt, *n)?;
    }
    text(rt, b"\n")?;
    size(rt, b"blocks:", sizes::data_bytes(p), b" bytes\n")?;
    size(rt, b"page:", sizes::page_bytes(p), b" bytes\n")?;
    size(rt, b"distance:", sizes::distance(p), b" bits\n")
}

fn main(rt: HostRuntime) -> io::Result<()> {
    let mut input = [0u8; 9];
    given::read_full(&mut rt.reader(), &mut input)?;
    let p = sheet_given(input);
    sheet(&rt, p)?;
    let mut list = [0u16; 12];
    match sizes::quote(p, &mut list) {
        Ok(()) => quoted(&rt, p, list),
        Err(e) => refused(&rt, e),
    }
}
