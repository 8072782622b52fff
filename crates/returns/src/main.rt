// The returns desk's program: standard input has q, m, v, L, then t_0 to t_v if v is 1 to 3, as the writer's has, then a page;
// a missing one of these leading bytes counts as 0, and L for nothing.
// It writes byte 0 and the mended page, or one byte, the refusal's number. No sub-word is shortened: s is 0.
#![tactic(auto)]

ghost use Rattle.std.specs.Prelude.{◌≡◌, ◌∷◌, ◌≤◌, ◌<◌, IfOk, length};
ghost use Rattle.code.specs.Writer.{Puts, Returned, mender, sheet_given};
ghost use Rattle.given.specs.Output.{Answered};

use code::Parameters;
use given::Output;
use std::io;
use std::io::Write;

// ---- the output

// The bytes of one list put into another.
fn copy(to: &mut [u8], from: &[u8])
    requires { (length to.old ≡ length from.now) × (length to.old < 8192) }
    ensures { to.new ≡ from.now }
{
    to.copy_from_slice(from);
}

// Byte 0 and the page.
fn page_out(page: &[u8]) -> Output
    requires { length page.now ≤ 4096 }
    ensures { Puts (0 ∷ page.now) result.count result.bytes }
{
    let end = 1 + page.len();
    let mut bytes = given::zeros();
    copy(&mut bytes[1..end], page);
    Output { count: end, bytes }
}

// Byte 0 and the mended page, or the refusal's number.
fn page_mended(input: &[u8], p: Parameters) -> Output
    requires { (p ≡ sheet_given input.now) × (length input.now ≤ 4105) }
    ensures { Returned input.now result.count result.bytes }
{
    let at = given::rest_begins(input);
    let page = &input[at..];
    let n = page.len();
    let mut space = [0u8; 4105];
    let work = &mut space[..n];
    copy(work, page);
    match mend_page::mend_page(p, work) {
        Ok(()) => page_out(work),
        Err(e) => given::refused(e.number()),
    }
}

// ---- writing

// The output owed for the `got` bytes that were read to the room's start is written. That it goes to standard output, whole, is
// tested and not proved: no contract speaks of what a program writes.
fn put(rt: &impl Print, room: &[u8], got: usize, out: Output) -> io::Result<Output>
    requires { Answered mender room.now got out.count out.bytes }
    ensures { IfOk result (λ r. r ≡ out) }
{
    io::writer(rt).write_all(&out.bytes[..out.count])?;
    Ok(out)
}

// Byte 0 and the mended page, or the number of a refusal, for the `got` bytes that were read to the room's start:
// no byte that comes after a full room alters it.
fn respond(rt: &impl Print, room: &[u8], got: usize) -> io::Result<Output>
    requires { (length room.now ≡ 4105) × (got ≤ length room.now) }
    ensures { IfOk result (λ r. Answered mender room.now got r.count r.bytes) }
{
    let input = &room[..got];
    let p = given::sheet_given(input);
    put(rt, room, got, page_mended(input, p))
}

fn main(rt: HostRuntime) -> io::Result<()> {
    let mut room = [0u8; 4105];
    let got = given::read_full(&mut rt.reader(), &mut room)?;
    respond(&rt, &room, got)?;
    Ok(())
}
