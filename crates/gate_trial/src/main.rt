// Runs the calls on records from standard input and writes what they give.
//   record   36 bytes: call, q, m, v, t0 to t3, index, second index, width, 0, page length, buffer length (two bytes each, low
//            first), u, count (eight bytes each), s (four); then the page's bytes, for a writing the blocks', for a feeding the
//            register's 96. A writing of many pages has their number in count, the length of all in the buffer's length, and the
//            list's in u; an alteration the block and the bit in the lower and the upper four bytes of u, and the value in count;
//            a sub-word's mending its index in u, the list's length in the buffer's length, and what the number of flips is
//            before the call in count; all syndromes from the odd ones the level in u, and in the page's bytes the odd ones, two
//            each
//   answer   the refusal's number or 0, then what the call gives, and the lent buffer whole, of many pages that and the list, of
//            an alteration and of a whole page's mending the page, of a sub-word's the page, the list and the number of flips; of
//            a verdict 0, 32 or 64, then the word's index; 96 for blank
#![tactic(auto)]

use code::{Judgement, Outcome, Parameters, Verdict};
use element::{Element, Field, FieldError};
use register::{Fed, Register};
use std::io;
use std::io::{Read, Write};

// A record's call, by its number.
#[derive(Clone, Copy)]
enum Call {
    Test,
    Nesting,
    Generators,
    Elements,
    Open,
    Feed,
    Remainder,
    ShortRemainder,
    NestedWord,
    Syndromes,
    NestedSyndromes,
    Judge,
    ReadOut,
    Write,
    Quote,
    WriteMany,
    Alter,
    Mend,
    AllSyndromes,
    MendPage,
}

impl Call {
    const ALL: [Call; 20] = [
        Call::Test,
        Call::Nesting,
        Call::Generators,
        Call::Elements,
        Call::Open,
        Call::Feed,
        Call::Remainder,
        Call::ShortRemainder,
        Call::NestedWord,
        Call::Syndromes,
        Call::NestedSyndromes,
        Call::Judge,
        Call::ReadOut,
        Call::Write,
        Call::Quote,
        Call::WriteMany,
        Call::Alter,
        Call::Mend,
        Call::AllSyndromes,
        Call::MendPage,
    ];
}

// ---- numbers, low byte first

fn put(rt: &impl Print, n: u8) -> io::Result<()> {
    io::writer(rt).write_all(&[n])
}

fn put_number(rt: &impl Print, n: u64) -> io::Result<()> {
    io::writer(rt).write_all(&n.to_le_bytes())
}

fn put_numbers(rt: &impl Print, list: &[u64]) -> io::Result<()> {
    for n in list {
        put_number(rt, *n)?;
    }
    Ok(())
}

fn put_outcome(rt: &impl Print, r: Outcome) -> io::Result<()> {
    put(rt, code::number_of(&r))
}

// ---- the calls

fn test(rt: &impl Print, p: Parameters) -> io::Result<()> {
    match sheet::test(p) {
        Ok(p) => {
            put(rt, 0)?;
            put_numbers(
                rt,
                &[p.q, p.m, p.v, p.t0, p.t1, p.t2, p.t3, p.s].map(u64::from),
            )
        }
        Err(e) => put(rt, e.number()),
    }
}

fn nesting(rt: &impl Print, i: usize, l: usize) -> io::Result<()> {
    match sheet::nesting_coefficient(i, l) {
        Ok(c) => {
            put(rt, 0)?;
            put_number(rt, c)
        }
        Err(e) => put(rt, e.number()),
    }
}

fn generator_rows(rt: &impl Print, p: Parameters) -> io::Result<()> {
    put(rt, code::number_of(&sheet::test(p)))?;
    for row in levels::generators_of(p) {
        put_numbers(rt, &row)?;
    }
    Ok(())
}

fn put_computed(rt: &impl Print, r: Result<Element, FieldError>) -> io::Result<()> {
    match r {
        Ok(e) => {
            put(rt, 0)?;
            put_number(rt, u64::from(e.0))
        }
        Err(e) => put(rt, e.number()),
    }
}

fn elements(rt: &impl Print, q: u32, a: u16, b: u16, k: u32) -> io::Result<()> {
    match Field::make(q) {
        Ok(f) => {
            put_computed(rt, f.sum(Element(a), Element(b)))?;
            put_computed(rt, f.product(Element(a), Element(b)))?;
            put_computed(rt, f.power(Element(a), k))?;
            put_computed(rt, f.alpha_power(k))
        }
        Err(e) => put(rt, e.number()),
    }
}

// The first twelve numbers of eight bytes each; all 0 where there are fewer.
fn words_of(b: &[u8]) -> [u64; 12] {
    let mut words = [0u64; 12];
    if b.len() >= 96 {
        for (word, bytes) in words.iter_mut().zip(b.as_chunks().0) {
            *word = u64::from_le_bytes(*bytes);
        }
    }
    words
}

// Numbers of two bytes each.
fn take_pairs(b: &[u8], list: &mut [u16]) {
    for (n, bytes) in list.iter_mut().zip(b.as_chunks().0) {
        *n = u16::from_le_bytes(*bytes);
    }
}

fn put_fed(rt: &impl Print, f: Fed) -> io::Result<()> {
    put_outcome(rt, f.outcome)?;
    put_number(rt, u64::from(f.register.level))?;
    put_number(rt, f.register.count)?;
    put_numbers(rt, &f.register.remainder)
}

fn open(rt: &impl Print, p: Parameters, level: u32) -> io::Result<()> {
    put_fed(rt, Register::open(p, level))
}

fn feed(
    rt: &impl Print,
    p: Parameters,
    level: u32,
    count: u64,
    rest: &[u8],
    width: u32,
    u: u64,
) -> io::Result<()> {
    let r = Register {
        level,
        count,
        remainder: words_of(rest),
    };
    put_fed(rt, r.feed(p, width, u))
}

fn put_pairs(rt: &impl Print, list: &[u16]) -> io::Result<()> {
    for n in list {
        io::writer(rt).write_all(&n.to_le_bytes())?;
    }
    Ok(())
}

fn put_bytes(rt: &impl Print, r: Outcome, out: &[u8]) -> io::Result<()> {
    put_outcome(rt, r)?;
    io::writer(rt).write_all(out)
}

fn put_list(rt: &impl Print, r: Outcome, list: &[u16]) -> io::Result<()> {
    put_outcome(rt, r)?;
    put_pairs(rt, list)
}

fn put_verdict(rt: &impl Print, r: Judgement) -> io::Result<()> {
    match r {
        Ok(Verdict::Member) => put(rt, 0),
        Ok(Verdict::SubWord(i)) => {
            put(rt, 32)?;
            put_number(rt, i as u64)
        }
        Ok(Verdict::NestedWord(l)) => {
            put(rt, 64)?;
            put_number(rt, l as u64)
        }
        Ok(Verdict::Blank) => put(rt, 96),
        Err(e) => put(rt, e.number()),
    }
}

fn judge(rt: &impl Print, p: Parameters, page: &[u8]) -> io::Result<()> {
    put_verdict(rt, page::judge(p, page))
}

// The calls that fill lent bytes.
fn bytes_call(
    rt: &impl Print,
    call: Call,
    p: Parameters,
    page: &[u8],
    i: usize,
    width: u32,
    out: &mut [u8],
) -> io::Result<()> {
    match call {
        Call::Remainder => put_bytes(rt, oneword::remainder(p, page, i, out), out),
        Call::ShortRemainder => put_bytes(rt, oneword::short_remainder(p, page, i, out), out),
        Call::NestedWord => put_bytes(rt, oneword::nested_word(p, page, i, out), out),
        Call::ReadOut => {
            put_verdict(rt, page::read_out(p, page, out))?;
            io::writer(rt).write_all(out)
        }
        _ => put_bytes(rt, page::write(p, width, page, out), out),
    }
}

// Many pages, and the list.
fn many_call(
    rt: &impl Print,
    p: Parameters,
    width: u32,
    count: u32,
    blocks: &[u8],
    pages: &mut [u8],
    list: &mut [u8],
) -> io::Result<()> {
    let r = page::write_many(p, width, count, blocks, pages, list);
    put_bytes(rt, r, pages)?;
    io::writer(rt).write_all(list)
}

// One bit of the page.
fn alter_call(
    rt: &impl Print,
    p: Parameters,
    page: &mut [u8],
    block: u32,
    bit: u32,
    value: u32,
) -> io::Result<()> {
    let r = alter::alter(p, page, block, bit, value);
    put_bytes(rt, r, page)
}

// A sub-word of the page, the list of flips, and their number.
fn mend_call(
    rt: &impl Print,
    p: Parameters,
    page: &mut [u8],
    i: usize,
    list: &mut [u16],
    old: u8,
) -> io::Result<()> {
    let mut flips = old;
    let r = mend::mend(p, page, i, list, &mut flips);
    put_bytes(rt, r, page)?;
    put_pairs(rt, list)?;
    put(rt, flips)
}

// The page through its nested words.
fn mend_page_call(rt: &impl Print, p: Parameters, page: &mut [u8]) -> io::Result<()> {
    let r = mend_page::mend_page(p, page);
    put_bytes(rt, r, page)
}

// Those that give syndromes, and the quote.
fn list_call(
    rt: &impl Print,
    call: Call,
    p: Parameters,
    page: &[u8],
    i: usize,
    list: &mut [u16],
) -> io::Result<()> {
    let r = match call {
        Call::Quote => sizes::quote(p, list),
        Call::Syndromes => oneword::syndromes(p, page, i, list),
        _ => oneword::nested_syndromes(p, page, i, list),
    };
    put_list(rt, r, list)
}

// All syndromes from the odd ones, which the bytes are.
fn all_call(
    rt: &impl Print,
    p: Parameters,
    level: u32,
    b: &[u8],
    odd: &mut [u16],
    list: &mut [u16],
) -> io::Result<()> {
    take_pairs(b, odd);
    let r = oneword::all_syndromes(p, level, odd, list);
    put_list(rt, r, list)
}

fn lend_bytes(
    rt: &impl Print,
    call: Call,
    p: Parameters,
    page: &[u8],
    i: usize,
    width: u32,
    size: usize,
) -> io::Result<()> {
    let mut room = [165u8; 8192];
    let Some(out) = room.get_mut(..size) else {
        return Ok(());
    };
    bytes_call(rt, call, p, page, i, width, out)
}

fn lend_many(
    rt: &impl Print,
    p: Parameters,
    width: u32,
    count: u32,
    blocks: &[u8],
    size: usize,
    length: usize,
) -> io::Result<()> {
    let mut room = [165u8; 8192];
    let mut list = [165u8; 32];
    let (Some(pages), Some(list)) = (room.get_mut(..size), list.get_mut(..length)) else {
        return Ok(());
    };
    many_call(rt, p, width, count, blocks, pages, list)
}

fn lend_list(
    rt: &impl Print,
    call: Call,
    p: Parameters,
    page: &[u8],
    i: usize,
    size: usize,
) -> io::Result<()> {
    let mut room = [42405u16; 256];
    let Some(list) = room.get_mut(..size) else {
        return Ok(());
    };
    list_call(rt, call, p, page, i, list)
}

fn lend_all(rt: &impl Print, p: Parameters, level: u32, b: &[u8], size: usize) -> io::Result<()> {
    let mut odd = [0u16; 128];
    let mut room = [42405u16; 256];
    let (Some(odd), Some(list)) = (odd.get_mut(..b.len() / 2), room.get_mut(..size)) else {
        return Ok(());
    };
    all_call(rt, p, level, b, odd, list)
}

fn lend_mending(
    rt: &impl Print,
    p: Parameters,
    page: &mut [u8],
    i: usize,
    size: usize,
    old: u8,
) -> io::Result<()> {
    let mut room = [42405u16; 256];
    let Some(list) = room.get_mut(..size) else {
        return Ok(());
    };
    mend_call(rt, p, page, i, list, old)
}

// The calls that change the page.
fn change(
    rt: &impl Print,
    call: Call,
    p: Parameters,
    page: &mut [u8],
    size: usize,
    u: u64,
    count: u64,
) -> io::Result<()> {
    match call {
        Call::Alter => alter_call(rt, p, page, low_half(u), (u >> 32) as u32, low_half(count)),
        Call::MendPage => mend_page_call(rt, p, page),
        _ => lend_mending(rt, p, page, u as usize, size, (count & 0xff) as u8),
    }
}

fn low_half(n: u64) -> u32 {
    (n & 0xffff_ffff) as u32
}

fn run(rt: &impl Print, h: &[u8; 36], page: &mut [u8], size: usize) -> io::Result<()> {
    let p = Parameters {
        q: u32::from(h[1]),
        m: u32::from(h[2]),
        v: u32::from(h[3]),
        t0: u32::from(h[4]),
        t1: u32::from(h[5]),
        t2: u32::from(h[6]),
        t3: u32::from(h[7]),
        s: u32::from_le_bytes([h[32], h[33], h[34], h[35]]),
    };
    let i = usize::from(h[8]);
    let l = usize::from(h[9]);
    let width = u32::from(h[10]);
    let (words, _) = h.as_chunks();
    let u = u64::from_le_bytes(words[2]);
    let count = u64::from_le_bytes(words[3]);
    let Some(&call) = Call::ALL.get(usize::from(h[0])) else {
        return Ok(());
    };
    match call {
        Call::Test => test(rt, p),
        Call::Nesting => nesting(rt, i, l),
        Call::Generators => generator_rows(rt, p),
        Call::Elements => elements(rt, p.q, (u & 0xffff) as u16, (count & 0xffff) as u16, width),
        Call::Open => open(rt, p, u32::from(h[8])),
        Call::Feed => feed(rt, p, u32::from(h[8]), count, page, width, u),
        Call::Remainder | Call::ShortRemainder | Call::NestedWord | Call::ReadOut | Call::Write => {
            lend_bytes(rt, call, p, page, i, width, size)
        }
        Call::Syndromes | Call::NestedSyndromes | Call::Quote => lend_list(
            rt, call, p, page, i, size,
        ),
        Call::Judge => judge(rt, p, page),
        Call::WriteMany => lend_many(
            rt,
            p,
            width,
            low_half(count),
            page,
            size,
            (u & 0xffff) as usize,
        ),
        Call::Alter | Call::Mend | Call::MendPage => change(rt, call, p, page, size, u, count),
        Call::AllSyndromes => lend_all(rt, p, low_half(u), page, size),
    }
}

// One record; is there another?
fn record<R: Read>(rt: &impl Print, input: &mut R) -> io::Result<bool> {
    let mut head = [0u8; 36];
    if given::read_full(input, &mut head)? < head.len() {
        return Ok(false);
    }
    let length = u16::from_le_bytes([head[12], head[13]]);
    let size = u16::from_le_bytes([head[14], head[15]]);
    let mut room = [0u8; 8192];
    let Some(page) = room.get_mut(..usize::from(length)) else {
        return Ok(false);
    };
    given::read_full(input, page)?;
    run(rt, &head, page, usize::from(size))?;
    Ok(true)
}

fn main(rt: HostRuntime) -> io::Result<()> {
    let mut input = rt.reader();
    for _ in 0..u64::MAX {
        if !record(&rt, &mut input)? {
            break;
        }
    }
    Ok(())
}
