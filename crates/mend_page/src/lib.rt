// A page mended through its nested words, in a room of its own that is copied to the page at the end: each sub-word by itself, then rounds until none
// is broken; the end page must be a member. A member is left as it is.
#![tactic(auto)]

ghost use Rattle.std.specs.Prelude.{◌≡◌, ◌&&◌, not, eqb, take};
ghost use Rattle.code.specs.Calls.{PageMended, generators};
ghost use Rattle.code.specs.Code.{failing_number};
ghost use Rattle.code.specs.Layout.{IsPage, blank, words_of};
ghost use Rattle.code.specs.Nest.{mend_page, rounds};
ghost use Rattle.code.specs.Parameters.{Accepted};
ghost use Rattle.mend.specs.Settled.{Lent};
ghost use Rattle.mend_page.specs.Ends.{Ends, Stands, says_member};

use code::{Outcome, Parameters, Refusal, Verdict};
use element::Field;

// Is it the verdict of a member?
fn says_member(r: Verdict) -> bool
    ensures { result ≡ says_member r }
{
    matches!(r, Verdict::Member)
}

// Is the page a member, and not blank?
fn is_member(p: Parameters, rows: [[u64; 13]; 4], page: &[u8]) -> bool
    requires { Accepted p × (rows ≡ generators p) × IsPage p page.now }
    ensures { result ≡ (eqb (failing_number p (words_of p page.now)) 0 && not (blank p page.now)) }
{
    !layout::page_blank(p, page) && says_member(judge::verdict_of(p, rows, page))
}

// Rounds until none is broken, the first b numbers of the list being those of the broken sub-words: whether a member comes of it, and then the page
// is it.
fn mend_rounds(
    p: Parameters,
    f: Field,
    powers: &[u16],
    logs: &[u16],
    rows: [[u64; 13]; 4],
    page: &mut [u8],
    broken: &mut [u16],
    b: usize,
) -> bool
    requires { Lent p f powers.now logs.now × (rows ≡ generators p) × Stands p page.old broken.old b }
    ensures { Ends p (rounds p p.v (record { words = words_of p page.old; broken = take b broken.old })) page.new result }
{
    let v = p.v as usize;
    let mut left = [0u16; 8];
    let mut n = b;
    // n falls by the sub-words that a round mends
    while 0 < n {
        if v < n {
            return false;
        }
        let c = rounds::round(p, f, powers, logs, rows, page, &broken[..n], &mut left);
        if n <= c {
            return false;
        }
        syndrome::copy(broken, &left);
        n = c;
    }
    is_member(p, rows, page)
}

// The first pass and the rounds, by lent tables.
fn mend_by(
    p: Parameters,
    f: Field,
    powers: &[u16],
    logs: &[u16],
    rows: [[u64; 13]; 4],
    page: &mut [u8],
) -> bool
    requires { Lent p f powers.now logs.now × (rows ≡ generators p) × IsPage p page.old }
    ensures { Ends p (mend_page p (words_of p page.old)) page.new result }
{
    let mut broken = [0u16; 8];
    let b = alone::first_pass(p, f, powers, logs, rows, page, &mut broken);
    mend_rounds(p, f, powers, logs, rows, page, &mut broken, b)
}

// The same by the tables of the field.
fn mend_in(p: Parameters, rows: [[u64; 13]; 4], page: &mut [u8]) -> bool
    requires { Accepted p × (rows ≡ generators p) × IsPage p page.old }
    ensures { Ends p (mend_page p (words_of p page.old)) page.new result }
{
    let f = Field::of(p.q);
    element::with_tables(
        f,
        &mut |powers, logs| mend_by(p, f, powers, logs, rows, page),
    )
}

// The page mended, for accepted parameters and a page of them: in a room of its own, so that a refusal changes no byte.
fn mend_exact(p: Parameters, page: &mut [u8]) -> Outcome
    requires { Accepted p × IsPage p page.old }
    ensures { PageMended p page.old page.new result }
{
    let rows = levels::rows(p);
    if is_member(p, rows, page) {
        return Ok(());
    }
    let n = page.len();
    let mut room = [0u8; 4096];
    let work = &mut room[..n];
    kernels::bytes::copy_up(work, page, 0);
    if !mend_in(p, rows, work) {
        return Err(Refusal::UnmendedPage);
    }
    kernels::bytes::copy_up(page, work, 0);
    Ok(())
}

// A page mended, first each sub-word by itself, then through the nested words: the page is a member afterwards. 17 where none comes of it: then
// nothing changes.
pub fn mend_page(p: Parameters, page: &mut [u8]) -> Outcome
    ensures { PageMended p page.old page.new result }
{
    refusal::sheet_refusal(p)?;
    refusal::page_refusal(p, page)?;
    mend_exact(p, page)
}
