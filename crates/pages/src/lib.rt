// Pages from their blocks, one page or many: level by level, so that the table of a level is made once and serves every page. Blocks and
// pages stand one behind another, and a list has a byte for each page: a page whose byte is not 0 is left as it is.
#![tactic(auto)]

ghost use Rattle.std.specs.Prelude.{true, ◌≡◌, ℕ, ◌≤◌, ◌<◌, length};
ghost use Rattle.code.specs.Calls.{generators, pages_by};
ghost use Rattle.code.specs.Code.{degree, level};
ghost use Rattle.levels.specs.Ready.{Prepared};
ghost use Rattle.encode.specs.Page.{Span};
ghost use Rattle.pages.specs.Filling.{Begun, Filling, Given, Making, PageTurned, SameLevel, Stage};

use code::Parameters;

// Sub-words `from` - 1 down to `to` of page k, whose later ones are written; t is the table of the level of each, acc room to work in.
fn write_page(
    p: Parameters,
    w: &[u32],
    blocks: &[u8],
    pages: &mut [u8],
    list: &[u8],
    k: usize,
    from: usize,
    to: usize,
    width: usize,
    t: &[u64],
    acc: &mut [u8],
)
    requires { Filling p w.now blocks.now pages.old list.now width acc.old × (k < length list.now)
        × Span p t.now to from × Begun p blocks.now list.now pages.old k from }
    ensures { PageTurned p blocks.now list.now pages.old pages.new k to }
{
    if list[k] != 0 {
        return;
    }
    let size = layout::data_bytes(p, w);
    let bytes = layout::page_bytes(p);
    let at = k * size;
    let end = at + size;
    let start = k * bytes;
    let stop = start + bytes;
    encode::write_span(
        p,
        w,
        &blocks[at..end],
        &mut pages[start..stop],
        from,
        to,
        width,
        t,
        acc,
    );
}

// The same of every page.
fn write_pages(
    p: Parameters,
    w: &[u32],
    blocks: &[u8],
    pages: &mut [u8],
    list: &[u8],
    from: usize,
    to: usize,
    width: usize,
    t: &[u64],
    acc: &mut [u8],
)
    requires { Filling p w.now blocks.now pages.old list.now width acc.old × Span p t.now to from
        × ((k : ℕ) → k < length list.now → Begun p blocks.now list.now pages.old k from) }
    ensures { Stage p blocks.now list.now pages.old pages.new to }
{
    for k in 0..list.len() {
        write_page(p, w, blocks, pages, list, k, from, to, width, t, acc);
    }
}

// ---- level by level

// Whether a table with bytes is made: there is room for it, the degree is at most 384, whole words are taken a step, and so many sub-words are
// written that it pays. Which table it is alters no result.
fn bytes_pay(words: usize, bits: usize, width: usize, room: usize) -> bool
    ensures { result ≡ true → (room ≡ 12288) × (bits ≤ 384) }
{
    room == 12288 && bits <= 384 && width == 64 && 32 <= words
}

// Sub-words `from` - 1 down to `to` of every page, by a table with bytes that is made in b, from t, the table of their level.
fn write_bytewise(
    p: Parameters,
    w: &[u32],
    blocks: &[u8],
    pages: &mut [u8],
    list: &[u8],
    from: usize,
    to: usize,
    width: usize,
    t: &[u64],
    b: &mut [u64],
    acc: &mut [u8],
)
    requires { Filling p w.now blocks.now pages.old list.now width acc.old × SameLevel p to from
        × Prepared p (level p to) t.now × (degree p (level p to) ≤ 384) × (length b.old ≡ 12288)
        × ((k : ℕ) → k < length list.now → Begun p blocks.now list.now pages.old k from) }
    ensures { Stage p blocks.now list.now pages.old pages.new to }
{
    bytewise::build(b, t);
    write_pages(p, w, blocks, pages, list, from, to, width, b, acc);
}

// The same with the table made in t: that of sub-word `to`, whose level the others have too; b is room for one with bytes, or of another length.
fn write_level(
    p: Parameters,
    rows: [[u64; 13]; 4],
    w: &[u32],
    blocks: &[u8],
    pages: &mut [u8],
    list: &[u8],
    from: usize,
    to: usize,
    width: usize,
    t: &mut [u64],
    b: &mut [u64],
    acc: &mut [u8],
)
    requires { Making p rows w.now blocks.now pages.old list.now width t.old acc.old × SameLevel p to from
        × ((k : ℕ) → k < length list.now → Begun p blocks.now list.now pages.old k from) }
    ensures { Stage p blocks.now list.now pages.old pages.new to }
{
    let a = layout::level_of(p, to);
    let bits = layout::check_bits(p, w, to);
    levels::prepare(t, p, rows, a, bits);
    if bytes_pay(list.len() * (from - to), bits, width, b.len()) {
        write_bytewise(p, w, blocks, pages, list, from, to, width, t, b, acc);
    } else {
        write_pages(p, w, blocks, pages, list, from, to, width, t, acc);
    }
}

// Sub-words v - 1 down to 0, each of a level of its own, after the others are written.
fn write_earlier(
    p: Parameters,
    rows: [[u64; 13]; 4],
    w: &[u32],
    blocks: &[u8],
    pages: &mut [u8],
    list: &[u8],
    width: usize,
    t: &mut [u64],
    b: &mut [u64],
    acc: &mut [u8],
)
    requires { Making p rows w.now blocks.now pages.old list.now width t.old acc.old
        × ((k : ℕ) → k < length list.now → Begun p blocks.now list.now pages.old k p.v) }
    ensures { Stage p blocks.now list.now pages.old pages.new 0 }
{
    for i in (0..p.v as usize).rev() {
        write_level(p, rows, w, blocks, pages, list, i + 1, i, width, t, b, acc);
    }
}

// The pages of the blocks, `width` coefficients a step, where the list has 0; b is room for a table with bytes, or of another length. The
// array has one word more than the table: so the table stands at a multiple of 16 bytes in the frame of the C call, where two words are
// read at a time, and no read crosses a line of the cache.
fn encode_in(
    p: Parameters,
    rows: [[u64; 13]; 4],
    w: &[u32],
    blocks: &[u8],
    pages: &mut [u8],
    list: &[u8],
    width: usize,
    b: &mut [u64],
)
    requires { Given p w.now blocks.now pages.old list.now width × (rows ≡ generators p) }
    ensures { pages.new ≡ pages_by p list.now blocks.now pages.old }
{
    let mut table = [0u64; 3073];
    let mut room = [0u8; 520];
    let k = encode::room_bytes(p);
    let t = &mut table[..3072];
    let acc = &mut room[..k];
    let m = p.m as usize;
    let v = p.v as usize;
    write_level(p, rows, w, blocks, pages, list, m, v, width, t, b, acc);
    write_earlier(p, rows, w, blocks, pages, list, width, t, b, acc);
}

// The same with little room: for few pages.
pub fn encode(
    p: Parameters,
    rows: [[u64; 13]; 4],
    w: &[u32],
    blocks: &[u8],
    pages: &mut [u8],
    list: &[u8],
    width: usize,
)
    requires { Given p w.now blocks.now pages.old list.now width × (rows ≡ generators p) }
    ensures { pages.new ≡ pages_by p list.now blocks.now pages.old }
{
    let mut none = [0u64; 1];
    encode_in(p, rows, w, blocks, pages, list, width, &mut none);
}

// The same with room for a table with bytes: for many.
pub fn encode_many(
    p: Parameters,
    rows: [[u64; 13]; 4],
    w: &[u32],
    blocks: &[u8],
    pages: &mut [u8],
    list: &[u8],
    width: usize,
)
    requires { Given p w.now blocks.now pages.old list.now width × (rows ≡ generators p) }
    ensures { pages.new ≡ pages_by p list.now blocks.now pages.old }
{
    let mut wide = [0u64; 12288];
    encode_in(p, rows, w, blocks, pages, list, width, &mut wide);
}
