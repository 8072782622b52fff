// One sub-word of a page mended: the multiple of g_0 that is 0 in its top s places and within t_0 flips of it is put in its stead. The places to
// flip are found by the odd syndromes of the sub-word, those of its remainder by g_0; where that is 0 there are none.
#![tactic(auto)]

ghost use Rattle.std.specs.Prelude.{◌≡◌, ◌-◌, ◌*◌, ◌^◌, ◌≤◌, ◌<◌, IfSome, is_some, length, get_or, take};
ghost use Rattle.polynomial.specs.Digits.{value};
ghost use Rattle.polynomial.specs.Xor.{xor};
ghost use Rattle.field.specs.Elements.{syndrome};
ghost use Rattle.field.specs.Flips.{Rising, flips};
ghost use Rattle.locator.specs.Locate as L;
ghost use Rattle.code.specs.Calls.{Mended};
ghost use Rattle.code.specs.Code.{nearest};
ghost use Rattle.code.specs.Layout.{IsPage, page_bytes, place_list, words_of};
ghost use Rattle.code.specs.Parameters.{Accepted, len, stored, strength};
ghost use Rattle.element.specs.Lent.{Tables};
ghost use Rattle.layout.specs.Written.{written};
ghost use Rattle.syndrome.specs.Places.{Places};
ghost use Rattle.refusal.specs.Indexed.{Unrefused};
ghost use Rattle.locating.specs.Look.{front};
ghost use Rattle.mend.specs.Settled.{Settled};

use code::{Outcome, Parameters, Refusal};
use element::Field;
use word::level_remainder;

// ---- the places to flip

// By lent tables: the places, rising and below z, of the error of at most t places with the syndromes of the polynomial in r, which has w
// coefficients at most, if there is one: their number, and they stand first in the list.
pub fn locate_by(
    powers: &[u16],
    logs: &[u16],
    f: Field,
    r: &[u64],
    w: usize,
    t: usize,
    z: usize,
    list: &mut [u16],
) -> Option<usize>
    requires { Tables f powers.now logs.now × (w ≤ 64 * length r.now) × (w ≤ 768) × (w ≤ 2 ^ f.q - 1) × (value 64 r.now < 2 ^ w) × (t ≤ 64)
        × (2 * t < 2 ^ f.q - 1) × (z ≤ 2 ^ f.q - 1) × (t ≤ length list.old) }
    ensures { L.locate f.q (syndrome f.q (value 64 r.now)) t z ≡ front result list.new × IfSome result (λ c. c ≤ t) }
{
    let mut room = [0u16; 64];
    let odd = &mut room[..t];
    syndrome::odd_into(odd, powers, f, r, w);
    locating::locate(powers, logs, f, odd, t, z, list)
}

// The same for a sheet's stored places, by the tables of its field.
fn locate_in(p: Parameters, r: &[u64], w: usize, t: usize, list: &mut [u16]) -> Option<usize>
    requires { Accepted p × (w ≤ 64 * length r.now) × (w ≤ 768) × (w ≤ len p) × (value 64 r.now < 2 ^ w) × (t ≡ strength p 0) × (t ≤ length list.old) }
    ensures { L.locate p.q (syndrome p.q (value 64 r.now)) t (stored p) ≡ front result list.new × IfSome result (λ c. c ≤ t) }
{
    let f = Field::of(p.q);
    let z = layout::stored_of(p);
    element::with_tables(
        f,
        &mut |powers, logs| locate_by(powers, logs, f, r, w, t, z, list),
    )
}

// The places of the flips, at most t, which is t_0, that mend the word s, if there are such flips: their number, and they stand
// first in the list.
fn find(p: Parameters, s: &[u8], t: usize, list: &mut [u16]) -> Option<usize>
    requires { Accepted p × (value 8 s.now < 2 ^ stored p) × (t ≡ strength p 0) × (t ≤ length list.old) }
    ensures { nearest p 0 (value 8 s.now) ≡ front result list.new × IfSome result (λ c. c ≤ t) }
{
    let mut r = [0u64; 13];
    let w = level_remainder(&mut r, p, 0, s);
    if kernels::row::is_zero(&r) {
        Some(0)
    } else {
        locate_in(p, &r, w, t, list)
    }
}

// ---- what is left in the lent page and list

// The places of the list are flipped.
fn flip_all(s: &mut [u8], list: &[u16])
    requires { Places (8 * length s.old) (length list.now) list.now }
    ensures { value 8 s.new ≡ xor (value 8 s.old) (flips list.now) }
{
    for &e in list {
        layout::flip(s, usize::from(e));
    }
}

// The same in sub-word i of the page.
pub fn flip_in(p: Parameters, page: &mut [u8], i: usize, list: &[u16])
    requires { Accepted p × (length page.old ≡ page_bytes p) × (i < p.m) × Places (stored p) (length list.now) list.now }
    ensures { page.new ≡ written p page.old i (xor (get_or (words_of p page.old) i 0) (flips list.now)) }
{
    let b = layout::sub_word_bytes(p);
    let at = i * b;
    let end = at + b;
    flip_all(&mut page[at..end], list);
}

// What is found for sub-word i is done to it: as many places as are found, first in the list, are flipped. Whether anything
// was found.
pub fn settle(p: Parameters, page: &mut [u8], i: usize, list: &[u16], found: Option<usize>) -> bool
    requires { Accepted p × IsPage p page.old × (i < p.m)
        × IfSome found (λ c. (c ≤ length list.now) × Rising 0 (stored p) (take c list.now)) }
    ensures { Settled p page.old i (front found list.now) page.new × (result ≡ is_some found) }
{
    let Some(c) = found else {
        return false;
    };
    flip_in(p, page, i, &list[..c]);
    true
}

// The places of the list, and 65535 after them.
fn list_into(places: &mut [u16], list: &[u16])
    requires { length list.now ≤ length places.old }
    ensures { places.new ≡ place_list (length places.old) list.now }
{
    let c = list.len();
    places[..c].copy_from_slice(list);
    places[c..].fill(65535);
}

// Sub-word i mended, all being lent as it must be, t being t_0. Nothing is written before the places are known.
fn mend_word(
    p: Parameters,
    page: &mut [u8],
    i: usize,
    t: usize,
    places: &mut [u16],
    flips: &mut u8,
) -> Outcome
    requires { Unrefused p page.old i p.m (length places.old) (1 * strength p 0) × (t ≡ strength p 0) }
    ensures { Mended p page.old page.new i places.old places.new flips.old flips.new result }
{
    let mut list = [0u16; 64];
    let s = layout::sub_word(p, page, i);
    let Some(c) = find(p, s, t, &mut list) else {
        return Err(Refusal::Unmended);
    };
    let found = &list[..c];
    flip_in(p, page, i, found);
    list_into(places, found);
    *flips = c as u8;
    Ok(())
}

// Sub-word i with its flips undone, the flipped places rising in the list, which has t_0 numbers, and 65535 after them, and their number in
// `flips`. 15 where no multiple of g_0, 0 in its top s places, is within t_0 flips: then nothing changes.
pub fn mend(p: Parameters, page: &mut [u8], i: usize, places: &mut [u16], flips: &mut u8) -> Outcome
    ensures { Mended p page.old page.new i places.old places.new flips.old flips.new result }
{
    let t = sheet::strength_at(p, 0) as usize;
    refusal::word_refusal(p, page, i, p.m as usize, places.len(), t)?;
    mend_word(p, page, i, t, places, flips)
}
