// The C calls: the numbers of a sheet one by one, buffers as byte slices, the answer as a number. Each tests everything.
#![tactic(auto)]

ghost use Rattle.code.specs.Calls.{AlteredC, MendedC, PageMendedC, WrittenC, WrittenManyC, JudgedC, ReadOutC, SyndromesMadeC, NestedSyndromesMadeC, AllMadeC, QuoteMadeC, SizeC};
ghost use Rattle.code.specs.Code.{distance};
ghost use Rattle.code.specs.Layout.{data_bytes, page_bytes};
ghost use Rattle.code.specs.Parameters.{sheet};

use crate::all::all_bytes;
use crate::answers::{judgement_number, outcome_number, size_number};
use crate::mending::mend_bytes;
use crate::quote::quote_bytes;
use crate::syndromes::syndrome_bytes;
use code::Parameters;

mod all; // all syndromes in bytes
mod answers; // answers as numbers
mod mending; // places in bytes
mod quote; // the quote in bytes
mod syndromes; // odd syndromes in bytes

// The page of the blocks, `width` coefficients a step.
#[unsafe(no_mangle)]
pub extern "C" fn gii_write(
    q: u32,
    m: u32,
    v: u32,
    t0: u32,
    t1: u32,
    t2: u32,
    t3: u32,
    s: u32,
    width: u32,
    blocks: &[u8],
    page: &mut [u8],
) -> u32
    ensures { WrittenC (sheet q m v t0 t1 t2 t3 s) width blocks.now page.old page.new result }
{
    let p = Parameters {
        q,
        m,
        v,
        t0,
        t1,
        t2,
        t3,
        s,
    };
    let r = page::write(p, width, blocks, page);
    outcome_number(r)
}

// The pages of `count` block sets, and what each alone would be refused for.
#[unsafe(no_mangle)]
pub extern "C" fn gii_write_many(
    q: u32,
    m: u32,
    v: u32,
    t0: u32,
    t1: u32,
    t2: u32,
    t3: u32,
    s: u32,
    width: u32,
    count: u32,
    blocks: &[u8],
    pages: &mut [u8],
    list: &mut [u8],
) -> u32
    ensures { WrittenManyC (sheet q m v t0 t1 t2 t3 s) width count blocks.now pages.old pages.new
        list.old list.new result }
{
    let p = Parameters {
        q,
        m,
        v,
        t0,
        t1,
        t2,
        t3,
        s,
    };
    let r = page::write_many(p, width, count, blocks, pages, list);
    outcome_number(r)
}

// Bit `bit` of block `block` made `value` in the page.
#[unsafe(no_mangle)]
pub extern "C" fn gii_alter(
    q: u32,
    m: u32,
    v: u32,
    t0: u32,
    t1: u32,
    t2: u32,
    t3: u32,
    s: u32,
    page: &mut [u8],
    block: u32,
    bit: u32,
    value: u32,
) -> u32
    ensures { AlteredC (sheet q m v t0 t1 t2 t3 s) page.old block bit value page.new result }
{
    let p = Parameters {
        q,
        m,
        v,
        t0,
        t1,
        t2,
        t3,
        s,
    };
    let r = alter::alter(p, page, block, bit, value);
    outcome_number(r)
}

// Sub-word `index` of the page mended, the flipped places in `places` and their number in `flips`.
#[unsafe(no_mangle)]
pub extern "C" fn gii_mend(
    q: u32,
    m: u32,
    v: u32,
    t0: u32,
    t1: u32,
    t2: u32,
    t3: u32,
    s: u32,
    page: &mut [u8],
    index: u32,
    places: &mut [u8],
    flips: &mut u8,
) -> u32
    ensures { MendedC (sheet q m v t0 t1 t2 t3 s) page.old page.new index places.old places.new flips.old flips.new result }
{
    let p = Parameters {
        q,
        m,
        v,
        t0,
        t1,
        t2,
        t3,
        s,
    };
    mend_bytes(p, page, index as usize, places, flips)
}

// The page mended, each sub-word by itself and then through the nested words.
#[unsafe(no_mangle)]
pub extern "C" fn gii_mend_page(
    q: u32,
    m: u32,
    v: u32,
    t0: u32,
    t1: u32,
    t2: u32,
    t3: u32,
    s: u32,
    page: &mut [u8],
) -> u32
    ensures { PageMendedC (sheet q m v t0 t1 t2 t3 s) page.old page.new result }
{
    let p = Parameters {
        q,
        m,
        v,
        t0,
        t1,
        t2,
        t3,
        s,
    };
    let r = mend_page::mend_page(p, page);
    outcome_number(r)
}

// Is the page a member, and if not, which word fails first?
#[unsafe(no_mangle)]
pub extern "C" fn gii_judge(
    q: u32,
    m: u32,
    v: u32,
    t0: u32,
    t1: u32,
    t2: u32,
    t3: u32,
    s: u32,
    page: &[u8],
) -> u32
    ensures { JudgedC (sheet q m v t0 t1 t2 t3 s) page.now result }
{
    let p = Parameters {
        q,
        m,
        v,
        t0,
        t1,
        t2,
        t3,
        s,
    };
    judgement_number(page::judge(p, page))
}

// The blocks of the page, member or not, and judge's answer.
#[unsafe(no_mangle)]
pub extern "C" fn gii_read_out(
    q: u32,
    m: u32,
    v: u32,
    t0: u32,
    t1: u32,
    t2: u32,
    t3: u32,
    s: u32,
    page: &[u8],
    blocks: &mut [u8],
) -> u32
    ensures { ReadOutC (sheet q m v t0 t1 t2 t3 s) page.now blocks.old blocks.new result }
{
    let p = Parameters {
        q,
        m,
        v,
        t0,
        t1,
        t2,
        t3,
        s,
    };
    let r = page::read_out(p, page, blocks);
    judgement_number(r)
}

// The syndromes S_1, S_3, .., t_0 of them, of sub-word `index`.
#[unsafe(no_mangle)]
pub extern "C" fn gii_syndromes(
    q: u32,
    m: u32,
    v: u32,
    t0: u32,
    t1: u32,
    t2: u32,
    t3: u32,
    s: u32,
    page: &[u8],
    index: u32,
    list: &mut [u8],
) -> u32
    ensures { SyndromesMadeC (sheet q m v t0 t1 t2 t3 s) page.now index list.old list.new result }
{
    let p = Parameters {
        q,
        m,
        v,
        t0,
        t1,
        t2,
        t3,
        s,
    };
    syndrome_bytes(false, p, page, index as usize, list)
}

// The syndromes S_1, S_3, .., t_(v-l) of them, of nested word l, l being `index`.
#[unsafe(no_mangle)]
pub extern "C" fn gii_nested_syndromes(
    q: u32,
    m: u32,
    v: u32,
    t0: u32,
    t1: u32,
    t2: u32,
    t3: u32,
    s: u32,
    page: &[u8],
    index: u32,
    list: &mut [u8],
) -> u32
    ensures { NestedSyndromesMadeC (sheet q m v t0 t1 t2 t3 s) page.now index list.old list.new result }
{
    let p = Parameters {
        q,
        m,
        v,
        t0,
        t1,
        t2,
        t3,
        s,
    };
    syndrome_bytes(true, p, page, index as usize, list)
}

// S_1, S_2, .., 2t of them, of a word of a level, t being its strength, from the list of S_1, S_3, ..
#[unsafe(no_mangle)]
pub extern "C" fn gii_all_syndromes(
    q: u32,
    m: u32,
    v: u32,
    t0: u32,
    t1: u32,
    t2: u32,
    t3: u32,
    s: u32,
    level: u32,
    odd: &[u8],
    list: &mut [u8],
) -> u32
    ensures { AllMadeC (sheet q m v t0 t1 t2 t3 s) level odd.now list.old list.new result }
{
    let p = Parameters {
        q,
        m,
        v,
        t0,
        t1,
        t2,
        t3,
        s,
    };
    all_bytes(p, level, odd, list)
}

// The degrees of levels 0 to v, 0 past v, and the data bits of blocks 0 to m - 1, 0 past m: four numbers and eight.
#[unsafe(no_mangle)]
pub extern "C" fn gii_quote(
    q: u32,
    m: u32,
    v: u32,
    t0: u32,
    t1: u32,
    t2: u32,
    t3: u32,
    s: u32,
    list: &mut [u8],
) -> u32
    ensures { QuoteMadeC (sheet q m v t0 t1 t2 t3 s) list.old list.new result }
{
    let p = Parameters {
        q,
        m,
        v,
        t0,
        t1,
        t2,
        t3,
        s,
    };
    quote_bytes(p, list)
}

// The bytes of a page. 0 where the sheet is refused.
#[unsafe(no_mangle)]
pub extern "C" fn gii_page_bytes(
    q: u32,
    m: u32,
    v: u32,
    t0: u32,
    t1: u32,
    t2: u32,
    t3: u32,
    s: u32,
) -> u32
    ensures { SizeC (sheet q m v t0 t1 t2 t3 s) (page_bytes (sheet q m v t0 t1 t2 t3 s)) result }
{
    let p = Parameters {
        q,
        m,
        v,
        t0,
        t1,
        t2,
        t3,
        s,
    };
    let r = sizes::page_bytes(p);
    size_number(r)
}

// The bytes of all blocks. 0 where the sheet is refused.
#[unsafe(no_mangle)]
pub extern "C" fn gii_data_bytes(
    q: u32,
    m: u32,
    v: u32,
    t0: u32,
    t1: u32,
    t2: u32,
    t3: u32,
    s: u32,
) -> u32
    ensures { SizeC (sheet q m v t0 t1 t2 t3 s) (data_bytes (sheet q m v t0 t1 t2 t3 s)) result }
{
    let p = Parameters {
        q,
        m,
        v,
        t0,
        t1,
        t2,
        t3,
        s,
    };
    let r = sizes::data_bytes(p);
    size_number(r)
}

// The least number of bits in which two different members can differ, as the formulas give it. 0 where the sheet is refused.
#[unsafe(no_mangle)]
pub extern "C" fn gii_distance(
    q: u32,
    m: u32,
    v: u32,
    t0: u32,
    t1: u32,
    t2: u32,
    t3: u32,
    s: u32,
) -> u32
    ensures { SizeC (sheet q m v t0 t1 t2 t3 s) (distance (sheet q m v t0 t1 t2 t3 s)) result }
{
    let p = Parameters {
        q,
        m,
        v,
        t0,
        t1,
        t2,
        t3,
        s,
    };
    let r = sizes::distance(p);
    size_number(r)
}
