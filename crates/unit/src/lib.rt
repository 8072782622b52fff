// The page of a single bit. Only the sub-words that it has bits in are worked out: its own, and those below both it and v; and all but the bit
// itself in sub-words as short as the sheet's rules allow.
#![tactic(auto)]

ghost use Rattle.std.specs.Prelude.{◌≡◌, ◌+◌, ◌/◌, ◌^◌, ◌<◌, length, replicate};
ghost use Rattle.polynomial.specs.Digits.{value};
ghost use Rattle.code.specs.Calls.{generators};
ghost use Rattle.code.specs.Code.{remainder};
ghost use Rattle.code.specs.Layout.{data_bits, one_block, page_bytes, page_of};
ghost use Rattle.code.specs.Parameters.{Accepted, stored};
ghost use Rattle.layout.specs.Sizes.{Degrees};
ghost use Rattle.encode.specs.Carried.{room_bytes};
ghost use Rattle.layout.specs.Written.{written};
ghost use Rattle.encode.specs.Encoding.{word_alone, word_from};
ghost use Rattle.unit.specs.Short.{below, data_below, shortest};
ghost use Rattle.unit.specs.Unit.{Making};

use code::Parameters;

// ---- the page of one block alone

// Sub-word i, of the data d alone, over their own check bits. The table of its level is made in t.
fn own_word(
    p: Parameters,
    rows: [[u64; 13]; 4],
    w: &[u32],
    unit: &mut [u8],
    i: usize,
    d: &[u8],
    t: &mut [u64],
)
    requires { Making p rows w.now unit.old t.old × (i < p.m) × (value 8 d.now < 2 ^ data_bits p i) }
    ensures { unit.new ≡ written p unit.old i (word_alone p (value 8 d.now) i) }
{
    let a = layout::level_of(p, i);
    let bits = layout::check_bits(p, w, i);
    levels::prepare(t, p, rows, a, bits);
    encode::write_alone(p, w, d, unit, i, 64, t);
}

// Sub-word j, before the last ones, without data: the check bits that the later sub-words ask for.
fn carried_word(
    p: Parameters,
    rows: [[u64; 13]; 4],
    w: &[u32],
    unit: &mut [u8],
    j: usize,
    t: &mut [u64],
    acc: &mut [u8],
)
    requires { Making p rows w.now unit.old t.old × (j < p.v) × (length acc.old ≡ room_bytes p) }
    ensures { unit.new ≡ written p unit.old j (word_from p 0 unit.old j) }
{
    let a = layout::level_of(p, j);
    let bits = layout::check_bits(p, w, j);
    levels::prepare(t, p, rows, a, bits);
    let none = [0u8; 104];
    encode::write_early(p, w, &none, unit, j, 64, t, acc);
}

// The page of the data d in block i and 0 elsewhere, made in the zero page: sub-word i, and from there down those below both i and v. Tables
// are made in t.
fn block_page(
    p: Parameters,
    rows: [[u64; 13]; 4],
    w: &[u32],
    unit: &mut [u8],
    i: usize,
    d: &[u8],
    t: &mut [u64],
)
    requires { Accepted p × (rows ≡ generators p) × Degrees p w.now × (unit.old ≡ replicate (page_bytes p) 0)
        × (i < p.m) × (value 8 d.now < 2 ^ data_bits p i) × (length t.old ≡ 3072) }
    ensures { unit.new ≡ page_of p (one_block p i (value 8 d.now)) }
{
    let mut room = [0u8; 520];
    let n = encode::room_bytes(p);
    let acc = &mut room[..n];
    own_word(p, rows, w, unit, i, d, t);
    for j in (0..i.min(p.v as usize)).rev() {
        carried_word(p, rows, w, unit, j, t, acc);
    }
}

// ---- the page of a single bit: x^e and its remainder y by g_v, and the page of y's data

// The remainder of x^e by g_v, in y, which is 0; its table is made in t.
fn power_below(
    y: &mut [u8],
    p: Parameters,
    rows: [[u64; 13]; 4],
    w: &[u32],
    e: usize,
    t: &mut [u64],
)
    requires { Accepted p × (rows ≡ generators p) × Degrees p w.now × (value 8 y.old ≡ 0) × (length y.old ≡ 96) × (e < stored p)
        × (length t.old ≡ 3072) }
    ensures { value 8 y.new ≡ remainder p p.v (2 ^ e) }
{
    let mut s = [0u8; 512];
    let v = p.v as usize;
    let bits = layout::check_bits(p, w, 0);
    levels::prepare(t, p, rows, v, bits);
    layout::flip(&mut s, e);
    let mut r = [0u64; 13];
    encode::check_of(&mut r, t, &s, p, v, bits, 64);
    kernels::bytes::store_low(y, &r, bits);
}

// The sheet with the shortest sub-words.
pub fn shortest_of(p: Parameters, w: &[u32]) -> Parameters
    requires { Accepted p × Degrees p w.now }
    ensures { result ≡ shortest p }
{
    let n = layout::length_of(p);
    let bits = layout::check_bits(p, w, 0);
    let s = n - bits - 1;
    Parameters { s: s as u32, ..p }
}

// The page of y's data in block i, made in the zero page of the shortest sheet q, `bits` being the check bits of sub-word i. Tables are made
// in t.
fn short_page(
    q: Parameters,
    rows: [[u64; 13]; 4],
    w: &[u32],
    short: &mut [u8],
    y: &[u8],
    i: usize,
    bits: usize,
    t: &mut [u64],
)
    requires { Accepted q × (rows ≡ generators q) × Degrees q w.now × (short.old ≡ replicate (page_bytes q) 0) × (i < q.m) × (bits < 8192)
        × (value 8 y.now < 2 ^ 768) × (value 8 y.now / 2 ^ bits < 2 ^ data_bits q i) × (length t.old ≡ 3072) }
    ensures { short.new ≡ page_of q (one_block q i (value 8 y.now / 2 ^ bits)) }
{
    let mut d = [0u8; 96];
    kernels::bytes::copy_down(&mut d, y, bits);
    block_page(q, rows, w, short, i, &d, t);
}

// All that takes tables: the remainder y of x^e by g_v, e being the place of bit r of block i, and the page of y's data in the shortest
// sheet q. Both are 0 before.
pub fn work_out(
    p: Parameters,
    rows: [[u64; 13]; 4],
    w: &[u32],
    i: usize,
    r: usize,
    y: &mut [u8],
    q: Parameters,
    short: &mut [u8],
)
    requires { Accepted p × (rows ≡ generators p) × Degrees p w.now × (i < p.m) × (r < data_bits p i) × (value 8 y.old ≡ 0)
        × (length y.old ≡ 96) × (q ≡ shortest p) × (short.old ≡ replicate (page_bytes q) 0) }
    ensures { (value 8 y.new ≡ below p i r) × (short.new ≡ page_of q (one_block q i (data_below p i r))) }
{
    let mut table = [0u64; 3073];
    let t = &mut table[..3072];
    let bits = layout::check_bits(p, w, i);
    power_below(y, p, rows, w, bits + r, t);
    short_page(q, rows, w, short, y, i, bits, t);
}
