// The requirement's cases 'on the counter' that are not proved in `cases`,
// and for each misreading of the layout a case that shows which reading is taken.
// A line says what was called and gives the answer, then the lent buffer; tools/counter.py works out what the lines must be.
#![tactic(auto)]

use code::{Judgement, Outcome, Parameters, Refusal, Verdict};
use std::io;

// ---- lines

fn numbers(rt: &impl Print, list: &[u16]) -> io::Result<()> {
    for n in list {
        print!(rt; " {n}")?;
    }
    Ok(())
}

fn bytes(rt: &impl Print, list: &[u8]) -> io::Result<()> {
    for b in list {
        print!(rt; " {b:02X}")?;
    }
    Ok(())
}

fn refused(rt: &impl Print, e: Refusal) -> io::Result<()> {
    print!(rt; " refused {}", e.number())
}

fn size(rt: &impl Print, r: Result<usize, Refusal>) -> io::Result<()> {
    match r {
        Ok(n) => print!(rt; " {n}"),
        Err(e) => refused(rt, e),
    }
}

fn outcome(rt: &impl Print, r: Outcome) -> io::Result<()> {
    match r {
        Ok(()) => print!(rt; " done"),
        Err(e) => refused(rt, e),
    }
}

fn verdict(rt: &impl Print, r: Judgement) -> io::Result<()> {
    match r {
        Ok(Verdict::Member) => print!(rt; " member"),
        Ok(Verdict::SubWord(i)) => print!(rt; " sub-word {i}"),
        Ok(Verdict::NestedWord(l)) => print!(rt; " nested word {l}"),
        Ok(Verdict::Blank) => print!(rt; " blank"),
        Err(e) => refused(rt, e),
    }
}

// The bytes that a call reads.
fn given(rt: &impl Print, read: &[u8]) -> io::Result<()> {
    print!(rt; ":")?;
    bytes(rt, read)?;
    print!(rt; ":")
}

fn sheet(rt: &impl Print, p: Parameters) -> io::Result<()> {
    let Parameters {
        q,
        m,
        v,
        t0,
        t1,
        t2,
        t3,
        s,
    } = p;
    println!(rt; "sheet {q} {m} {v} {t0} {t1} {t2} {t3} {s}")
}

// ---- calls

fn degrees(rt: &impl Print, p: Parameters) -> io::Result<()> {
    print!(rt; "degrees")?;
    for level in 0..4 {
        size(rt, sizes::degree(p, level))?;
    }
    println!(rt)
}

fn measured(rt: &impl Print, p: Parameters) -> io::Result<()> {
    sheet(rt, p)?;
    degrees(rt, p)?;
    print!(rt; "data")?;
    size(rt, sizes::data_bytes(p))?;
    print!(rt; "\npage")?;
    size(rt, sizes::page_bytes(p))?;
    print!(rt; "\ndistance")?;
    size(rt, sizes::distance(p))?;
    println!(rt)
}

fn write(
    rt: &impl Print,
    p: Parameters,
    width: u32,
    blocks: &[u8],
    page: &mut [u8],
) -> io::Result<()> {
    print!(rt; "write at {width}")?;
    given(rt, blocks)?;
    outcome(rt, page::write(p, width, blocks, page))?;
    bytes(rt, page)?;
    println!(rt)
}

fn judge(rt: &impl Print, p: Parameters, page: &[u8]) -> io::Result<()> {
    print!(rt; "judge")?;
    given(rt, page)?;
    verdict(rt, page::judge(p, page))?;
    println!(rt)
}

fn read_out(rt: &impl Print, p: Parameters, page: &[u8], blocks: &mut [u8]) -> io::Result<()> {
    print!(rt; "read out")?;
    given(rt, page)?;
    verdict(rt, page::read_out(p, page, blocks))?;
    bytes(rt, blocks)?;
    println!(rt)
}

fn nested_word(rt: &impl Print, p: Parameters, l: usize, page: &[u8]) -> io::Result<()> {
    print!(rt; "nested word {l}")?;
    given(rt, page)?;
    let mut out = [0xAAu8; 2];
    outcome(rt, oneword::nested_word(p, page, l, &mut out))?;
    bytes(rt, &out)?;
    println!(rt)
}

// Of nested word l of that level: the odd ones, and all from these.
fn nested_syndromes(
    rt: &impl Print,
    p: Parameters,
    l: usize,
    level: u32,
    page: &[u8],
) -> io::Result<()> {
    print!(rt; "syndromes of nested word {l}")?;
    given(rt, page)?;
    let mut odd = [0u16; 2];
    outcome(rt, oneword::nested_syndromes(p, page, l, &mut odd))?;
    numbers(rt, &odd)?;
    println!(rt)?;
    print!(rt; "all syndromes of nested word {l}")?;
    given(rt, page)?;
    let mut list = [0u16; 4];
    outcome(rt, oneword::all_syndromes(p, level, &odd, &mut list))?;
    numbers(rt, &list)?;
    println!(rt)
}

// The short remainder as the first word of a page that has no other, and the syndromes of that page's nested word 0.
fn short_remainder(rt: &impl Print, p: Parameters, page: &[u8]) -> io::Result<()> {
    print!(rt; "short remainder of nested word 0")?;
    given(rt, page)?;
    let mut out = [0xAAu8; 96];
    outcome(rt, oneword::short_remainder(p, page, 0, &mut out))?;
    let rest = [out[0], out[1], 0, 0];
    bytes(rt, &rest)?;
    println!(rt)?;
    nested_syndromes(rt, p, 0, 1, &rest)
}

// ---- the counter

const A: Parameters = Parameters {
    q: 4,
    m: 2,
    v: 1,
    t0: 1,
    t1: 2,
    t2: 0,
    t3: 0,
    s: 0,
};

const A3: Parameters = Parameters {
    q: 4,
    m: 2,
    v: 1,
    t0: 1,
    t1: 2,
    t2: 0,
    t3: 0,
    s: 3,
};

const B: Parameters = Parameters {
    q: 4,
    m: 3,
    v: 2,
    t0: 1,
    t1: 2,
    t2: 3,
    t3: 0,
    s: 0,
};

// Degrees, data, page and distance of the sheet of the encoding paper (docs/REQUIREMENT.md, "Literature"), shortened by s.
fn large(rt: &impl Print, s: u32) -> io::Result<()> {
    measured(
        rt,
        Parameters {
            q: 12,
            m: 8,
            v: 3,
            t0: 28,
            t1: 32,
            t2: 39,
            t3: 58,
            s,
        },
    )
}

// Sheet A with s 3 stores 12 coefficients of a sub-word, and has 4 spare bits above them. An erased page is blank whatever they
// are; its blocks are written, and make a member.
fn shortened(rt: &impl Print) -> io::Result<()> {
    let mut blocks = [0xAAu8; 2];
    let mut page = [0xAAu8; 4];
    sheet(rt, A3)?;
    judge(rt, A3, &[0xFF, 0x0F, 0xFF, 0x0F])?;
    judge(rt, A3, &[0xFF, 0xFF, 0xFF, 0xFF])?;
    read_out(rt, A3, &[0xFF, 0xFF, 0xFF, 0xFF], &mut blocks)?;
    write(rt, A3, 8, &blocks, &mut page)?;
    judge(rt, A3, &page)?;
    judge(rt, A3, &[0x00, 0x10, 0x00, 0x00])?;
    judge(rt, A3, &[0x00, 0x00, 0x00, 0x80])
}

// L 64 is accepted, 0 and 65 are refused.
fn widths(rt: &impl Print) -> io::Result<()> {
    let blocks = [0x01, 0x01, 0x00];
    let mut page = [0xAAu8; 4];
    sheet(rt, A)?;
    write(rt, A, 0, &blocks, &mut page)?;
    write(rt, A, 65, &blocks, &mut page)?;
    write(rt, A, 64, &blocks, &mut page)
}

// Pages of 3 and of 5 bytes: 7.
fn lengths(rt: &impl Print) -> io::Result<()> {
    let mut blocks = [0x01, 0x01, 0x00];
    let mut short = [0xAAu8; 3];
    let mut long = [0xAAu8; 5];
    write(rt, A, 8, &blocks, &mut short)?;
    write(rt, A, 8, &blocks, &mut long)?;
    judge(rt, A, &short)?;
    judge(rt, A, &long)?;
    read_out(rt, A, &short, &mut blocks)?;
    read_out(rt, A, &long, &mut blocks)
}

// An erased page is blank, its spare bits set or clear; the blocks that it reads out are not written.
fn erased(rt: &impl Print) -> io::Result<()> {
    let mut blocks = [0xAAu8; 3];
    let mut page = [0xAAu8; 4];
    judge(rt, A, &[0xFF, 0xFF, 0xFF, 0xFF])?;
    judge(rt, A, &[0xFF, 0x7F, 0xFF, 0x7F])?;
    read_out(rt, A, &[0xFF, 0xFF, 0xFF, 0xFF], &mut blocks)?;
    write(rt, A, 8, &blocks, &mut page)
}

// ---- the misreadings

// Words are added power by power. Bit 0 of block 0 is x^8, of block 1 x^4; their top bits 6 and 10 are both x^14.
fn powers(rt: &impl Print) -> io::Result<()> {
    let mut page = [0xAAu8; 4];
    write(rt, A, 8, &[0x01, 0x01, 0x00], &mut page)?;
    nested_word(rt, A, 0, &page)?;
    write(rt, A, 8, &[0x40, 0x00, 0x04], &mut page)?;
    nested_word(rt, A, 0, &page)
}

// S_1 and S_4 are not those of the short remainder: alpha and alpha^4 are roots of g_0, and no roots of g_1 / g_0.
fn past_short(rt: &impl Print) -> io::Result<()> {
    let page = [0x10, 0x00, 0x00, 0x00];
    nested_syndromes(rt, A, 0, 1, &page)?;
    short_remainder(rt, A, &page)
}

// Bits that x^(l i) turns out at the top return at the bottom.
fn turned(rt: &impl Print) -> io::Result<()> {
    sheet(rt, B)?;
    nested_word(rt, B, 1, &[0x00, 0x00, 0x00, 0x40, 0x00, 0x00])?;
    nested_word(rt, B, 1, &[0x00, 0x00, 0x00, 0x00, 0x00, 0x60])
}

// x^(l i) is not reduced by the field polynomial: l i is 4, 4 and 6, where q is 4.
fn not_reduced(rt: &impl Print) -> io::Result<()> {
    let five = Parameters {
        q: 4,
        m: 5,
        v: 2,
        t0: 1,
        t1: 2,
        t2: 2,
        t3: 0,
        s: 0,
    };
    let mut page = [0xAAu8; 10];
    sheet(rt, five)?;
    write(
        rt,
        five,
        8,
        &[0x00, 0x00, 0x00, 0x00, 0x00, 0x00, 0x01, 0x00],
        &mut page,
    )?;
    nested_word(
        rt,
        five,
        1,
        &[0x00, 0x00, 0x00, 0x00, 0x00, 0x00, 0x00, 0x00, 0x01, 0x00],
    )?;
    let four = Parameters {
        q: 4,
        m: 4,
        v: 3,
        t0: 1,
        t1: 2,
        t2: 2,
        t3: 2,
        s: 0,
    };
    sheet(rt, four)?;
    nested_word(
        rt,
        four,
        2,
        &[0x00, 0x00, 0x00, 0x00, 0x01, 0x00, 0x00, 0x00],
    )?;
    nested_word(
        rt,
        four,
        2,
        &[0x00, 0x00, 0x00, 0x00, 0x00, 0x00, 0x01, 0x00],
    )
}

// A nested word of a shortened sheet has n places: of 11 stored coefficients, x^10 of sub-word 4 is x^14 in nested word 1, and
// x^3 in nested word 2, where it is turned out at x^15. A sub-word takes the bytes of its stored coefficients, here two and at q
// 8 three.
fn kept_places(rt: &impl Print) -> io::Result<()> {
    let deep = Parameters {
        q: 4,
        m: 5,
        v: 3,
        t0: 1,
        t1: 2,
        t2: 2,
        t3: 2,
        s: 4,
    };
    let top = [0x00, 0x00, 0x00, 0x00, 0x00, 0x00, 0x00, 0x00, 0x00, 0x04];
    sheet(rt, deep)?;
    nested_word(rt, deep, 1, &top)?;
    nested_word(rt, deep, 2, &top)?;
    let pair = Parameters {
        q: 8,
        m: 2,
        v: 1,
        t0: 1,
        t1: 2,
        t2: 0,
        t3: 0,
        s: 231,
    };
    let mut page = [0xAAu8; 6];
    sheet(rt, pair)?;
    write(rt, pair, 8, &[0x01, 0x01, 0x00], &mut page)
}

// The degree at t = 3 is 10, not 12. Sheet B has no level 3, and with m = 4 it clashes.
fn cosets(rt: &impl Print) -> io::Result<()> {
    measured(rt, B)?;
    measured(
        rt,
        Parameters {
            q: 4,
            m: 4,
            v: 2,
            t0: 1,
            t1: 2,
            t2: 3,
            t3: 0,
            s: 0,
        },
    )
}

fn main(rt: HostRuntime) -> io::Result<()> {
    large(&rt, 0)?;
    large(&rt, 1900)?;
    large(&rt, 3404)?;
    large(&rt, 3405)?;
    shortened(&rt)?;
    widths(&rt)?;
    lengths(&rt)?;
    erased(&rt)?;
    powers(&rt)?;
    past_short(&rt)?;
    turned(&rt)?;
    not_reduced(&rt)?;
    kept_places(&rt)?;
    cosets(&rt)
}
