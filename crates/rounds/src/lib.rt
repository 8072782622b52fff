// Rounds through the nested words of a page, by lent tables of the field: the syndromes of b nested words give those of b unknown errors, and each
// that is an error of few enough stored bits is mended, all of a round from the page as it stood when the round began.
#![tactic(auto)]

ghost use Rattle.std.specs.Prelude.{◌≡◌, not, ◌+◌, ◌*◌, ◌-◌, ◌<◌, ◌≤◌, IfSome, length};
ghost use Rattle.field.specs.Flips.{Rising};
ghost use Rattle.code.specs.Calls.{generators};
ghost use Rattle.code.specs.Code.{degree, nested, odd_syndromes};
ghost use Rattle.code.specs.Layout.{IsPage, page_bytes, words_of};
ghost use Rattle.code.specs.Nest.{Mem, round};
ghost use Rattle.code.specs.Parameters.{Accepted, strength};
ghost use Rattle.code.specs.Refusals.{nowhere};
ghost use Rattle.element.specs.Fields.{field_at};
ghost use Rattle.levels.specs.Ready.{Prepared};
ghost use Rattle.massey.specs.Entries.{Below};
ghost use Rattle.locating.specs.Look.{front};
ghost use Rattle.mend.specs.Settled.{Held, Lent, Settled};
ghost use Rattle.syndrome.specs.Sum.{Roots};
ghost use Rattle.rounds.specs.Rows.{PutRow, Sums};
ghost use Rattle.rounds.specs.Found.{Asked, found_by};

use code::Parameters;
use element::Field;

// ---- the syndromes of the nested words

// S_1, S_3, .. of nested word l, as many as level a has strength: by its remainder by g_a, of degree w, whose table is t.
fn nested_sums(
    row: &mut [u16],
    p: Parameters,
    f: Field,
    powers: &[u16],
    t: &[u64],
    a: usize,
    w: usize,
    page: &[u8],
    l: usize,
)
    requires { Accepted p × (f ≡ field_at p.q) × Roots f powers.now × Prepared p a t.now × (a ≤ p.v) × (w ≡ degree p a)
        × (length page.now ≡ page_bytes p) × (l < p.v) × (length row.old ≡ strength p a) }
    ensures { row.new ≡ odd_syndromes p (strength p a) (nested p l (words_of p page.now)) }
{
    let k = layout::nested_bytes(p) + 8;
    let mut room = [0u8; 520];
    let acc = &mut room[..k];
    nested::nested_into(acc, p, page, l);
    let n = layout::nested_places(p);
    let mut r = [0u64; 13];
    levels::remainder_at(&mut r, t, acc, n, p, a, w);
    syndrome::odd_into(row, powers, f, &r, w);
}

// Row l of rows of 64 places begins with `row`.
fn put_row(rows: &mut [u16], row: &[u16], l: usize)
    requires { (length rows.old ≡ 192) × (l < 3) × (length row.now ≤ 64) }
    ensures { PutRow row.now l rows.old rows.new }
{
    let at = 64 * l;
    rows[at..at + row.len()].copy_from_slice(row);
}

// The syndromes of the first b nested words, a row each.
fn sums_into(
    rows: &mut [u16],
    p: Parameters,
    f: Field,
    powers: &[u16],
    t: &[u64],
    a: usize,
    w: usize,
    page: &[u8],
    b: usize,
)
    requires { Accepted p × (f ≡ field_at p.q) × Roots f powers.now × Prepared p a t.now × (a ≤ p.v) × (w ≡ degree p a)
        × (length page.now ≡ page_bytes p) × (b ≤ p.v) × (length rows.old ≡ 192) × Below p.q rows.old }
    ensures { Sums p a (words_of p page.now) b rows.new }
{
    let k = sheet::strength_at(p, a as u32) as usize;
    let mut room = [0u16; 64];
    let row = &mut room[..k];
    for l in 0..b {
        nested_sums(row, p, f, powers, t, a, w, page, l);
        put_row(rows, row, l);
    }
}

// ---- one sub-word

// The places of the error of sub-word i, one of the numbers ks, by the rows, if they are at most k, which is t_a: their number,
// and they stand first in the list.
fn find(
    p: Parameters,
    f: Field,
    powers: &[u16],
    logs: &[u16],
    rows: &[u16],
    ks: &[u16],
    a: usize,
    k: usize,
    i: u16,
    list: &mut [u16],
) -> Option<usize>
    requires { Lent p f powers.now logs.now × Asked p a k rows.now ks.now × Mem i ks.now × (length list.old ≡ 64) }
    ensures { found_by p a rows.now ks.now i ≡ front result list.new × IfSome result (λ c. c ≤ k) }
{
    let mut near = [0u16; 8];
    let c = unmix::others_into(&mut near, ks, i);
    let mut room = [0u16; 64];
    let odd = &mut room[..k];
    unmix::error_into(odd, rows, &near[..c], powers, logs, f, i as usize);
    let z = layout::stored_of(p);
    locating::locate(powers, logs, f, odd, k, z, list)
}

// Sub-word i mended, if its error is found: whether it is.
fn mend_word(
    p: Parameters,
    f: Field,
    powers: &[u16],
    logs: &[u16],
    rows: &[u16],
    ks: &[u16],
    a: usize,
    k: usize,
    page: &mut [u8],
    i: u16,
) -> bool
    requires { Lent p f powers.now logs.now × Asked p a k rows.now ks.now × Mem i ks.now × IsPage p page.old }
    ensures { Settled p page.old i (found_by p a rows.now ks.now i) page.new
        × (result ≡ not (nowhere (found_by p a rows.now ks.now i))) }
{
    let mut list = [0u16; 64];
    let found = find(p, f, powers, logs, rows, ks, a, k, i, &mut list);
    mend::settle(p, page, i as usize, &list, found)
}

// ---- a round

// A round at level a, whose table is t, on the broken sub-words ks: how many are left, and their numbers stand first in the list.
fn mend_words(
    p: Parameters,
    f: Field,
    powers: &[u16],
    logs: &[u16],
    t: &[u64],
    a: usize,
    w: usize,
    page: &mut [u8],
    ks: &[u16],
    left: &mut [u16],
) -> usize
    requires { Lent p f powers.now logs.now × Prepared p a t.now × (w ≡ degree p a) × (a ≡ p.v - length ks.now + 1) × IsPage p page.old
        × (1 ≤ length ks.now) × (length ks.now ≤ p.v) × Rising 0 p.m ks.now × (length left.old ≡ 8) }
    ensures { Held p (round p (record { words = words_of p page.old; broken = ks.now })) page.new left.new result }
{
    let k = sheet::strength_at(p, a as u32) as usize;
    let mut rows = [0u16; 192];
    sums_into(&mut rows, p, f, powers, t, a, w, page, ks.len());
    let mut n: usize = 0;
    for &i in ks {
        let found = mend_word(p, f, powers, logs, &rows, ks, a, k, page, i);
        n = numbers::note(left, n, i, found);
    }
    n
}

// A round by the generators' rows: its level is v - b + 1 where b are broken.
pub fn round(
    p: Parameters,
    f: Field,
    powers: &[u16],
    logs: &[u16],
    rows: [[u64; 13]; 4],
    page: &mut [u8],
    ks: &[u16],
    left: &mut [u16],
) -> usize
    requires { Lent p f powers.now logs.now × (rows ≡ generators p) × IsPage p page.old × (1 ≤ length ks.now) × (length ks.now ≤ p.v)
        × Rising 0 p.m ks.now × (length left.old ≡ 8) }
    ensures { Held p (round p (record { words = words_of p page.old; broken = ks.now })) page.new left.new result }
{
    let a = p.v as usize - ks.len() + 1;
    let w = levels::degree_at(p, rows, a) as usize;
    let mut table = [0u64; 3072];
    levels::prepare(&mut table, p, rows, a, w);
    mend_words(p, f, powers, logs, &table, a, w, page, ks, left)
}
