// The sizes of a sheet: the degrees of its generators, the bytes of a page and of its blocks, the distance, and the quote.
// Each call takes any numbers.
#![tactic(auto)]

ghost use Rattle.std.specs.Prelude.{◌≡◌, ◌+◌, ◌*◌, ◌≤◌, ◌<◌, length, get_or};
ghost use Rattle.code.specs.Calls.{quote as Calls·quote, QuoteMade};
ghost use Rattle.code.specs.Code.{degree as Code·degree, distance as Code·distance};
ghost use Rattle.code.specs.Layout.{data_bytes, page_bytes};
ghost use Rattle.code.specs.Parameters.{Accepted, sheet_refusal};
ghost use Rattle.code.specs.Refusals.{open_refusal};
ghost use Rattle.layout.specs.Sizes.{Degrees};
ghost use Rattle.sizes.specs.Sized.{Sized};

use code::{Outcome, Parameters, Refusal};

// The degree of the level's generator; 9 for a level above v.
pub fn degree(p: Parameters, level: u32) -> Result<usize, Refusal>
    ensures { Sized (open_refusal p level) (Code·degree p level) result }
{
    refusal::open_refusal(p, level)?;
    let rows = levels::rows(p);
    let w = levels::degree_at(p, rows, level as usize);
    Ok(w as usize)
}

// The bytes of a page.
pub fn page_bytes(p: Parameters) -> Result<usize, Refusal>
    ensures { Sized (sheet_refusal p) (page_bytes p) result }
{
    refusal::sheet_refusal(p)?;
    let n = layout::page_bytes(p);
    Ok(n)
}

// The bytes of all blocks.
pub fn data_bytes(p: Parameters) -> Result<usize, Refusal>
    ensures { Sized (sheet_refusal p) (data_bytes p) result }
{
    refusal::sheet_refusal(p)?;
    let rows = levels::rows(p);
    let w = levels::degrees(p, rows);
    let n = layout::data_bytes(p, &w);
    Ok(n)
}

// ---- the distance

// The weight of b words that each have 2 t + 1 ones.
fn weight(b: u32, t: u32) -> u32
    requires { (b ≤ 4) × (t ≤ 64) }
    ensures { result ≡ b * (2 * t + 1) }
{
    b * (2 * t + 1)
}

// The least of (v + 1)(2 t_0 + 1) and b (2 t_(v-b+1) + 1), b from 1 to v.
fn least(p: Parameters) -> u32
    requires { Accepted p }
    ensures { result ≡ Code·distance p }
{
    let v = p.v;
    let t = sheet::strength_at(p, 0);
    let mut d = weight(v + 1, t);
    for b in 1..=v {
        let s = sheet::strength_at(p, v - b + 1);
        d = weight(b, s).min(d);
    }
    d
}

// The least number of bits in which two different members can differ, as the formulas give it.
pub fn distance(p: Parameters) -> Result<usize, Refusal>
    ensures { Sized (sheet_refusal p) (Code·distance p) result }
{
    refusal::sheet_refusal(p)?;
    let d = least(p);
    Ok(d as usize)
}

// ---- the quote

// Number k of the quote; w holds the degrees of the generators.
fn quoted_at(p: Parameters, w: &[u32], k: usize) -> u16
    requires { Accepted p × Degrees p w.now × (k < 12) }
    ensures { result ≡ get_or (Calls·quote p) k 0 }
{
    if k < 4 {
        return w[k] as u16;
    }
    let i = k - 4;
    if i < p.m as usize {
        layout::data_bits(p, w, i) as u16
    } else {
        0
    }
}

// The 12 numbers of the quote.
fn quote_into(list: &mut [u16], p: Parameters, w: &[u32])
    requires { Accepted p × Degrees p w.now × (length list.old ≡ 12) }
    ensures { list.new ≡ Calls·quote p }
{
    for (k, n) in list.iter_mut().enumerate() {
        *n = quoted_at(p, w, k);
    }
}

// The degrees of levels 0 to v, 0 past v: four numbers; the data bits of blocks 0 to m - 1, 0 past m: eight.
pub fn quote(p: Parameters, list: &mut [u16]) -> Outcome
    ensures { QuoteMade p list.old list.new result }
{
    refusal::quote_refusal(p, list.len())?;
    let rows = levels::rows(p);
    let w = levels::degrees(p, rows);
    quote_into(list, p, &w);
    Ok(())
}
