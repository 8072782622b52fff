// The syndromes of odd number of a polynomial that stands in 64-bit words, by the places of its ones, and all syndromes from these.
#![tactic(auto)]

ghost use Rattle.std.specs.Prelude.{◌≡◌, map, ◌<◌, ◌≤◌, ◌+◌, ◌*◌, ◌-◌, ◌%◌, ◌^◌, length, get_or, take};
ghost use Rattle.polynomial.specs.Bits.{coefficient};
ghost use Rattle.polynomial.specs.Digits.{value};
ghost use Rattle.polynomial.specs.Division.{rem};
ghost use Rattle.field.specs.Elements.{syndrome, times};
ghost use Rattle.field.specs.Fields.{Known, field_polynomial};
ghost use Rattle.field.specs.Flips.{flips, ones};
ghost use Rattle.field.specs.Odd.{from_odd};
ghost use Rattle.code.specs.Lists.{range};
ghost use Rattle.element.specs.Fields.{Sized};
ghost use Rattle.element.specs.Lent.{Tables};
ghost use Rattle.syndrome.specs.Places.{Places};
ghost use Rattle.code.specs.Filled.{Filled};
ghost use Rattle.syndrome.specs.Sum.{Roots, table_sum};

use element::Field;

// ---- the places of the ones

// The coefficient of x^k.
fn coefficient_at(r: &[u64], k: usize) -> usize
    requires { k < 64 * length r.now }
    ensures { (result ≡ coefficient (value 64 r.now) k) × (result < 2) }
{
    let w = r[k / 64];
    ((w >> (k % 64)) % 2) as usize
}

// The places below w at which r has ones, rising: their number, and they stand first in the list. Every place is put down, and the next one
// over it where its coefficient is 0, so that no jump hangs on a coefficient.
fn places_of(places: &mut [u16], r: &[u64], w: usize) -> usize
    requires { (w ≤ 64 * length r.now) × (w ≤ length places.old) × (w ≤ 65536) }
    ensures { (result ≤ w) × (take result places.new ≡ ones w (value 64 r.now)) }
{
    let mut c = 0;
    for k in 0..w {
        places[c] = k as u16;
        c += coefficient_at(r, k);
    }
    c
}

// ---- sums of powers: each loop by itself, so that the compiler takes several exponents at once

// The entries of the table at the exponents, added.
fn power_sum(powers: &[u16], e: &[u16]) -> u16
    requires { Places (length powers.now) (length e.now) e.now }
    ensures { result ≡ table_sum powers.now e.now }
{
    let mut x = 0;
    for i in e {
        x ^= powers[*i as usize];
    }
    x
}

// Each exponent becomes its sum with d's, modulo n.
fn advance(f: Field, e: &mut [u16], d: &[u16])
    requires { Sized f × (length e.old ≡ length d.now) × Places (2 ^ f.q - 1) (length e.old) e.old × Places (2 ^ f.q - 1) (length d.now) d.now }
    ensures { e.new ≡ map (λ i. (get_or e.old i 0 + get_or d.now i 0) % (2 ^ f.q - 1)) (range 0 (length e.old)) }
{
    for i in 0..e.len() {
        e[i] = element::add_logs(f, e[i], d[i]);
    }
}

// The numbers of one list put into another.
pub fn copy(to: &mut [u16], from: &[u16])
    requires { length to.old ≡ length from.now }
    ensures { to.new ≡ from.now }
{
    to.copy_from_slice(from);
}

// S_1, S_3, .., as many as the list has places, of the word with ones at the places that e and d hold.
fn sums_into(list: &mut [u16], powers: &[u16], f: Field, e: &mut [u16], d: &mut [u16])
    requires { Roots f powers.now × (length e.old ≡ length d.old) × Places (2 ^ f.q - 1) (length e.old) e.old
        × Places (2 ^ f.q - 1) (length d.old) d.old × (d.old ≡ e.old) }
    ensures { list.new ≡ map (λ i. syndrome f.q (flips e.old) (2 * i + 1)) (range 0 (length list.old)) }
{
    advance(f, d, e);
    for x in list.iter_mut() {
        *x = power_sum(powers, e);
        advance(f, e, d);
    }
}

// The same, the places being lent.
pub fn odd_sums(list: &mut [u16], powers: &[u16], f: Field, places: &[u16])
    requires { Roots f powers.now × (length places.now ≤ 768) × Places (2 ^ f.q - 1) (length places.now) places.now }
    ensures { list.new ≡ map (λ i. syndrome f.q (flips places.now) (2 * i + 1)) (range 0 (length list.old)) }
{
    let c = places.len();
    let mut room = [0u16; 768];
    let mut spare = [0u16; 768];
    let e = &mut room[..c];
    let d = &mut spare[..c];
    copy(e, places);
    copy(d, places);
    sums_into(list, powers, f, e, d);
}

// S_1, S_3, .. of the polynomial in r, which has w coefficients at most, as many as the list has places.
pub fn odd_into(list: &mut [u16], powers: &[u16], f: Field, r: &[u64], w: usize)
    requires { Roots f powers.now × (w ≤ 64 * length r.now) × (w ≤ 768) × (w ≤ 2 ^ f.q - 1) × (value 64 r.now < 2 ^ w) }
    ensures { list.new ≡ map (λ i. syndrome f.q (value 64 r.now) (2 * i + 1)) (range 0 (length list.old)) }
{
    let mut places = [0u16; 768];
    let c = places_of(&mut places, r, w);
    odd_sums(list, powers, f, &places[..c]);
}

// The same by the table of the field.
pub fn odd_of(list: &mut [u16], f: Field, r: &[u64], w: usize)
    requires { Sized f × (w ≤ 64 * length r.now) × (w ≤ 768) × (w ≤ 2 ^ f.q - 1) × (value 64 r.now < 2 ^ w) }
    ensures { list.new ≡ map (λ i. syndrome f.q (value 64 r.now) (2 * i + 1)) (range 0 (length list.old)) }
{
    element::with_tables(f, &mut |powers, _| odd_into(list, powers, f, r, w));
}

// ---- all from the odd ones

// y without its coefficient of x^k, by a multiple of the field polynomial g.
fn reduce_at(q: u32, g: u32, y: u32, k: u32) -> u32
    requires { Known q × (g ≡ field_polynomial q) × (q ≤ k) × (k < 16) × (y < 2 ^ (k + 1)) }
    ensures { (rem (field_polynomial q) q result ≡ rem (field_polynomial q) q y) × (result < 2 ^ k) }
{
    if y >> k == 0 { y } else { y ^ (g << (k - q)) }
}

// x modulo the field polynomial of q.
fn reduce(q: u32, x: u16) -> u32
    requires { Known q }
    ensures { (result ≡ rem (field_polynomial q) q x) × (result < 2 ^ q) }
{
    let f = Field::of(q);
    let g = f.polynomial;
    let mut y = x as u32;
    for k in (q..16).rev() {
        y = reduce_at(q, g, y, k);
    }
    y
}

// The same, with no division where x is an element.
fn element_of(f: Field, x: u16) -> u32
    requires { Sized f }
    ensures { (result ≡ rem (field_polynomial f.q) f.q x) × (result < 2 ^ f.q) }
{
    let y = x as u32;
    if y < f.size { y } else { reduce(f.q, x) }
}

// The square of any number, modulo the field polynomial.
fn square(powers: &[u16], logs: &[u16], f: Field, x: u16) -> u16
    requires { Tables f powers.now logs.now }
    ensures { result ≡ times f.q x x }
{
    let y = element_of(f, x);
    let r = element::times_lent(powers, logs, f, y, y);
    r as u16
}

// Number j of all syndromes, S_(j + 1), from the list of those before it.
fn next_of(list: &[u16], odd: &[u16], powers: &[u16], logs: &[u16], f: Field, j: usize) -> u16
    requires { Tables f powers.now logs.now × (j < length list.now) × (j < 2 * length odd.now)
        × Filled (λ j. from_odd f.q (λ i. get_or odd.now i 0) (1 + j)) j list.now }
    ensures { result ≡ from_odd f.q (λ i. get_or odd.now i 0) (1 + j) }
{
    if j % 2 == 0 {
        odd[j / 2]
    } else {
        square(powers, logs, f, list[j / 2])
    }
}

// S_1, S_2, .. from the list of S_1, S_3, ..
pub fn all_into(list: &mut [u16], odd: &[u16], powers: &[u16], logs: &[u16], f: Field)
    requires { Tables f powers.now logs.now × (length list.old ≡ 2 * length odd.now) }
    ensures { list.new ≡ map (from_odd f.q (λ i. get_or odd.now i 0)) (range 1 (2 * length odd.now)) }
{
    for j in 0..list.len() {
        list[j] = next_of(list, odd, powers, logs, f, j);
    }
}

// The same by the tables of the field.
pub fn all_of(list: &mut [u16], odd: &[u16], f: Field)
    requires { Sized f × (length list.old ≡ 2 * length odd.now) }
    ensures { list.new ≡ map (from_odd f.q (λ i. get_or odd.now i 0)) (range 1 (2 * length odd.now)) }
{
    element::with_tables(f, &mut |powers, logs| all_into(list, odd, powers, logs, f));
}
