// Pages: written, one or many, judged, read out.
#![tactic(auto)]

ghost use Rattle.std.specs.Prelude.{◌≡◌, ◌+◌, ◌*◌, ◌/◌, ◌%◌, ◌^◌, ◌≤◌, ◌<◌, length, get_or};
ghost use Rattle.polynomial.specs.Digits.{digits, value};
ghost use Rattle.code.specs.Calls.{Judged, ReadOut, Written, WrittenMany, generators, status_of, statuses};
ghost use Rattle.code.specs.Code.{check_bits};
ghost use Rattle.code.specs.Layout.{block_offset, data_bytes, data_of, page_bytes, stored_of};
ghost use Rattle.code.specs.Parameters.{Accepted};
ghost use Rattle.layout.specs.Replaced.{replaced};
ghost use Rattle.layout.specs.Sizes.{Degrees};
ghost use Rattle.page.specs.Taken.{Taking, size_of};

use code::{Judgement, Outcome, Parameters, Refusal, Verdict};

// The b data bits of the sub-word s, which stand from place `bits` on.
fn data_into(block: &mut [u8], s: &[u8], bits: usize, b: usize)
    requires { (bits < 8192) × (1 ≤ b) × (b < 4096) × (length block.old ≡ (b + 7) / 8) }
    ensures { value 8 block.new ≡ value 8 s.now / 2 ^ bits % 2 ^ b }
{
    kernels::bytes::copy_down(block, s, bits);
    layout::clear_above(block, b);
}

// Block i of the page is put in its place among the blocks.
fn take_block(p: Parameters, w: &[u32], page: &[u8], blocks: &mut [u8], i: usize)
    requires { Taking p w.now page.now blocks.old × (i < p.m) }
    ensures { blocks.new ≡ replaced blocks.old (block_offset p i)
        (digits 8 (size_of p i) (get_or (stored_of p page.now) i 0 / 2 ^ check_bits p i)) }
{
    let at = layout::block_offset(p, w, i);
    let size = layout::block_size(p, w, i);
    let stop = at + size;
    let bits = layout::check_bits(p, w, i);
    let b = layout::data_bits(p, w, i);
    let s = layout::sub_word(p, page, i);
    data_into(&mut blocks[at..stop], s, bits, b);
}

// The blocks of the page.
fn take_blocks(p: Parameters, w: &[u32], page: &[u8], blocks: &mut [u8])
    requires { Taking p w.now page.now blocks.old }
    ensures { blocks.new ≡ data_of p page.now }
{
    for i in 0..p.m as usize {
        take_block(p, w, page, blocks, i);
    }
}

// Judge, for accepted parameters, whose generators are the rows, and a page of their length: blank before stray.
fn judge_exact(p: Parameters, rows: [[u64; 13]; 4], page: &[u8]) -> Judgement
    requires { Accepted p × (rows ≡ generators p) × (length page.now ≡ page_bytes p) }
    ensures { Judged p page.now result }
{
    if layout::page_blank(p, page) {
        return Ok(Verdict::Blank);
    }
    if !layout::page_clear(p, page) {
        return Err(Refusal::Stray);
    }
    Ok(judge::verdict_of(p, rows, page))
}

// Is the page a member, and if not, is it blank, or which word fails first?
pub fn judge(p: Parameters, page: &[u8]) -> Judgement
    ensures { Judged p page.now result }
{
    refusal::judge_lengths(p, page.len())?;
    let rows = levels::rows(p);
    judge_exact(p, rows, page)
}

// Read out, for accepted parameters.
fn read_accepted(p: Parameters, page: &[u8], blocks: &mut [u8]) -> Judgement
    requires { Accepted p }
    ensures { ReadOut p page.now blocks.old blocks.new result }
{
    let rows = levels::rows(p);
    let w = levels::degrees(p, rows);
    refusal::read_lengths(p, &w, page.len(), blocks.len())?;
    let verdict = judge_exact(p, rows, page)?;
    take_blocks(p, &w, page, blocks);
    Ok(verdict)
}

// The blocks of the page, member, blank or neither, and judge's answer.
pub fn read_out(p: Parameters, page: &[u8], blocks: &mut [u8]) -> Judgement
    ensures { ReadOut p page.now blocks.old blocks.new result }
{
    refusal::sheet_refusal(p)?;
    read_accepted(p, page, blocks)
}

// Write, for accepted parameters.
fn write_accepted(p: Parameters, width: u32, blocks: &[u8], page: &mut [u8]) -> Outcome
    requires { Accepted p }
    ensures { Written p width blocks.now page.old page.new result }
{
    let rows = levels::rows(p);
    let w = levels::degrees(p, rows);
    refusal::write_refusal(p, &w, width, blocks, page.len())?;
    let list = [0u8; 1];
    pages::encode(p, rows, &w, blocks, page, &list, width as usize);
    Ok(())
}

// The page of the blocks, `width` coefficients a step.
pub fn write(p: Parameters, width: u32, blocks: &[u8], page: &mut [u8]) -> Outcome
    ensures { Written p width blocks.now page.old page.new result }
{
    refusal::sheet_refusal(p)?;
    write_accepted(p, width, blocks, page)
}

// ---- many pages in one call

// What page k alone would be refused for, by its blocks.
fn status_at(p: Parameters, w: &[u32], width: u32, blocks: &[u8], k: usize) -> u8
    requires { Accepted p × Degrees p w.now × (k < 16) × (k * data_bytes p + data_bytes p ≤ length blocks.now) }
    ensures { result ≡ status_of p width blocks.now k }
{
    let size = layout::data_bytes(p, w);
    let bytes = layout::page_bytes(p);
    let at = k * size;
    let end = at + size;
    let outcome = refusal::write_refusal(p, w, width, &blocks[at..end], bytes);
    code::number_of(&outcome)
}

// The same of every page, listed.
fn list_pages(p: Parameters, w: &[u32], width: u32, blocks: &[u8], list: &mut [u8])
    requires { Accepted p × Degrees p w.now × (length list.old ≤ 16) × (length blocks.now ≡ length list.old * data_bytes p) }
    ensures { list.new ≡ statuses p width (length list.old) blocks.now }
{
    for (k, status) in list.iter_mut().enumerate() {
        *status = status_at(p, w, width, blocks, k);
    }
}

// Write of `count` pages, for accepted parameters: all that refuses the whole call is tested before a byte is touched.
fn many_accepted(
    p: Parameters,
    width: u32,
    count: u32,
    blocks: &[u8],
    pages: &mut [u8],
    list: &mut [u8],
) -> Outcome
    requires { Accepted p }
    ensures { WrittenMany p width count blocks.now pages.old pages.new list.old
        list.new result }
{
    let rows = levels::rows(p);
    let w = levels::degrees(p, rows);
    refusal::many_refusal(p, &w, width, count, blocks.len(), pages.len(), list.len())?;
    list_pages(p, &w, width, blocks, list);
    pages::encode_many(p, rows, &w, blocks, pages, list, width as usize);
    Ok(())
}

// The pages of `count` block sets, `width` coefficients a step, and a list of what each is refused for, 0 for a page that is written.
pub fn write_many(
    p: Parameters,
    width: u32,
    count: u32,
    blocks: &[u8],
    pages: &mut [u8],
    list: &mut [u8],
) -> Outcome
    ensures { WrittenMany p width count blocks.now pages.old pages.new list.old
        list.new result }
{
    refusal::sheet_refusal(p)?;
    many_accepted(p, width, count, blocks, pages, list)
}
