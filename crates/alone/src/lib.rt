// The first pass over a page that is mended: each sub-word by itself, by lent tables of the field and the table of g_0. What cannot be mended so is
// put down.
#![tactic(auto)]

ghost use Rattle.std.specs.Prelude.{◌≡◌, not, ◌<◌, ◌≤◌, IfSome, length, get_or};
ghost use Rattle.code.specs.Calls.{generators};
ghost use Rattle.code.specs.Code.{degree, nearest};
ghost use Rattle.code.specs.Layout.{IsPage, words_of};
ghost use Rattle.code.specs.Nest.{start};
ghost use Rattle.code.specs.Parameters.{strength};
ghost use Rattle.code.specs.Refusals.{nowhere};
ghost use Rattle.levels.specs.Ready.{Prepared};
ghost use Rattle.locating.specs.Look.{front};
ghost use Rattle.mend.specs.Settled.{Held, Lent, Settled};

use code::Parameters;
use element::Field;

// The places of the flips, at most t_0, that mend sub-word i, by the table t of g_0, of degree w, if there are such flips:
// their number, and they stand first in the list.
fn find(
    p: Parameters,
    f: Field,
    powers: &[u16],
    logs: &[u16],
    t: &[u64],
    w: usize,
    page: &[u8],
    i: usize,
    list: &mut [u16],
) -> Option<usize>
    requires { Lent p f powers.now logs.now × Prepared p 0 t.now × (w ≡ degree p 0) × IsPage p page.now × (i < p.m) × (length list.old ≡ 64) }
    ensures { nearest p 0 (get_or (words_of p page.now) i 0) ≡ front result list.new × IfSome result (λ c. c ≤ strength p 0) }
{
    let s = layout::sub_word(p, page, i);
    let z = layout::stored_of(p);
    let mut r = [0u64; 13];
    levels::remainder_at(&mut r, t, s, z, p, 0, w);
    if kernels::row::is_zero(&r) {
        Some(0)
    } else {
        mend::locate_by(powers, logs, f, &r, w, p.t0 as usize, z, list)
    }
}

// Sub-word i mended, if it can be: whether it could.
fn mend_word(
    p: Parameters,
    f: Field,
    powers: &[u16],
    logs: &[u16],
    t: &[u64],
    w: usize,
    page: &mut [u8],
    i: usize,
) -> bool
    requires { Lent p f powers.now logs.now × Prepared p 0 t.now × (w ≡ degree p 0) × IsPage p page.old × (i < p.m) }
    ensures { Settled p page.old i (nearest p 0 (get_or (words_of p page.old) i 0)) page.new
        × (result ≡ not (nowhere (nearest p 0 (get_or (words_of p page.old) i 0)))) }
{
    let mut list = [0u16; 64];
    let found = find(p, f, powers, logs, t, w, page, i, &mut list);
    mend::settle(p, page, i, &list, found)
}

// Every sub-word mended that can be: how many cannot, and their numbers stand first in the list. t is the table of g_0.
fn mend_words(
    p: Parameters,
    f: Field,
    powers: &[u16],
    logs: &[u16],
    t: &[u64],
    w: usize,
    page: &mut [u8],
    broken: &mut [u16],
) -> usize
    requires { Lent p f powers.now logs.now × Prepared p 0 t.now × (w ≡ degree p 0) × IsPage p page.old × (length broken.old ≡ 8) }
    ensures { Held p (start p (words_of p page.old)) page.new broken.new result }
{
    let mut b: usize = 0;
    for i in 0..p.m as usize {
        let found = mend_word(p, f, powers, logs, t, w, page, i);
        b = numbers::note(broken, b, i as u16, found);
    }
    b
}

// The same by the generators' rows.
pub fn first_pass(
    p: Parameters,
    f: Field,
    powers: &[u16],
    logs: &[u16],
    rows: [[u64; 13]; 4],
    page: &mut [u8],
    broken: &mut [u16],
) -> usize
    requires { Lent p f powers.now logs.now × (rows ≡ generators p) × IsPage p page.old × (length broken.old ≡ 8) }
    ensures { Held p (start p (words_of p page.old)) page.new broken.new result }
{
    let w = levels::degree_at(p, rows, 0) as usize;
    let mut table = [0u64; 3072];
    levels::prepare(&mut table, p, rows, 0, w);
    mend_words(p, f, powers, logs, &table, w, page, broken)
}
