// The writer program: standard input has q, m, v, L, then t_0 to t_v if v is 1 to 3, then the blocks;
// a missing one of these leading bytes counts as 0.
// It writes byte 0 and the page, or one byte, the refusal's number. No sub-word is shortened: s is 0.
#![tactic(auto)]

ghost use Rattle.std.specs.Prelude.{◌≡◌, ◌≤◌, IfOk, length};
ghost use Rattle.code.specs.Parameters.{Accepted};
ghost use Rattle.code.specs.Writer.{Wrote, sheet_given, writer};
ghost use Rattle.given.specs.Output.{Answered};

use code::Parameters;
use given::Output;
use std::io;
use std::io::Write;

// ---- the output

// Byte 0 and the page, or the number of write's refusal, of accepted parameters.
fn page_written(input: &[u8], p: Parameters) -> Output
    requires { (p ≡ sheet_given input.now) × Accepted p }
    ensures { Wrote input.now result.count result.bytes }
{
    let width = given::lead(input, 3);
    let at = given::rest_begins(input);
    let blocks = &input[at..];
    let end = 1 + layout::page_bytes(p);
    let mut bytes = given::zeros();
    match page::write(p, width, blocks, &mut bytes[1..end]) {
        Ok(()) => Output { count: end, bytes },
        Err(e) => given::refused(e.number()),
    }
}

// ---- writing

// The output owed for the `got` bytes that were read to the room's start is written. That it goes to standard output, whole, is
// tested and not proved: no contract speaks of what a program writes.
fn put(rt: &impl Print, room: &[u8], got: usize, out: Output) -> io::Result<Output>
    requires { Answered writer room.now got out.count out.bytes }
    ensures { IfOk result (λ r. r ≡ out) }
{
    io::writer(rt).write_all(&out.bytes[..out.count])?;
    Ok(out)
}

// Byte 0 and the page, or the number of a refusal, for the `got` bytes that were read to the room's start:
// no byte that comes after a full room alters it.
fn respond(rt: &impl Print, room: &[u8], got: usize) -> io::Result<Output>
    requires { (4093 ≤ length room.now) × (got ≤ length room.now) }
    ensures { IfOk result (λ r. Answered writer room.now got r.count r.bytes) }
{
    let input = &room[..got];
    let p = given::sheet_given(input);
    let tested = sheet::test(p);
    let Ok(
        Parameters {
            q,
            m,
            v,
            t0,
            t1,
            t2,
            t3,
            s,
        },
    ) = tested
    else {
        let k = code::number_of(&tested);
        return put(rt, room, got, given::refused(k));
    };
    let accepted = Parameters {
        q,
        m,
        v,
        t0,
        t1,
        t2,
        t3,
        s,
    };
    put(rt, room, got, page_written(input, accepted))
}

fn main(rt: HostRuntime) -> io::Result<()> {
    let mut room = [0u8; 4093];
    let got = given::read_full(&mut rt.reader(), &mut room)?;
    respond(&rt, &room, got)?;
    Ok(())
}
