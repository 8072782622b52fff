// The syndromes of one error out of those of the nested words: Vandermonde's equations solved for one unknown, by lent tables. Sub-word i
// enters nested word l at α^j with the factor α^(j i l), so its node is α^(j i).
#![tactic(auto)]

ghost use Rattle.std.specs.Prelude.{◌≡◌, map, ◌≢◌, suc, ◌+◌, ◌*◌, ◌<◌, ◌≤◌, ◌^◌, length, get_or, take};
ghost use Rattle.field.specs.Elements.{power};
ghost use Rattle.polynomial.specs.Sums.{All};
ghost use Rattle.code.specs.Lists.{range};
ghost use Rattle.code.specs.Nest.{others};
ghost use Rattle.element.specs.Lent.{Tables};
ghost use Rattle.massey.specs.Entries.{Below};
ghost use Rattle.unmix.specs.Nodes.{Apart, Divided, TakenOut, unmixed_at, weight_at};

use element::Field;
use massey::{multiple, product};

// The numbers but for i: how many, and they stand first in the list.
pub fn others_into(list: &mut [u16], ks: &[u16], i: u16) -> usize
    requires { length ks.now ≤ length list.old }
    ensures { (result ≤ length ks.now) × (take result list.new ≡ others i ks.now) }
{
    let mut c: usize = 0;
    for &k in ks {
        if k != i {
            list[c] = k;
            c += 1;
        }
    }
    c
}

// α^(j i).
fn node(powers: &[u16], logs: &[u16], f: Field, j: usize, i: usize) -> u16
    requires { Tables f powers.now logs.now × (j < 128) × (i < 8) }
    ensures { (result ≡ power f.q (j * i)) × (0 < result) × (result < 2 ^ f.q) }
{
    let n = f.order as usize;
    powers[j * i % n]
}

// a / d, d being above 0.
fn quotient(powers: &[u16], logs: &[u16], f: Field, a: u16, d: u16) -> u16
    requires { Tables f powers.now logs.now × (a < 2 ^ f.q) × (0 < d) × (d < 2 ^ f.q) }
    ensures { Divided f.q a d result }
{
    if a == 0 {
        return 0;
    }
    let i = element::log(logs, a as u32) as u32;
    let k = element::log(logs, d as u32) as u32;
    let n = f.order;
    let e = element::modulo(n, i + n - k);
    let r = element::root(powers, e);
    r as u16
}

// The node y, which is above 0, taken out of the sums: entry l becomes entry l + 1 plus y times entry l; the last one stays.
fn take_out(sums: &mut [u16], powers: &[u16], logs: &[u16], f: Field, y: u16)
    requires { Tables f powers.now logs.now × Below f.q sums.old × (0 < y) × (y < 2 ^ f.q) }
    ensures { TakenOut f.q y sums.old sums.new }
{
    let k = element::log(logs, y as u32);
    for l in 1..sums.len() {
        let x = multiple(powers, logs, f, k, sums[l - 1]);
        sums[l - 1] = sums[l] ^ x;
    }
}

// The weight at the node of i, by the power sums at α^j of weights at it and at the nodes of the others. The sums are worked on.
fn weight_of(
    sums: &mut [u16],
    others: &[u16],
    powers: &[u16],
    logs: &[u16],
    f: Field,
    j: usize,
    i: usize,
) -> u16
    requires { Tables f powers.now logs.now × Below f.q sums.old × (length sums.old ≡ suc (length others.now)) × (j < 128) × (i < 8)
        × All (λ k. k < 8) others.now × All (λ k. power f.q (j * k) ≢ power f.q (j * i)) others.now }
    ensures { result ≡ weight_at f.q j i others.now (λ l. get_or sums.old l 0) }
{
    let x = node(powers, logs, f, j, i);
    let mut d: u16 = 1;
    for &k in others {
        let y = node(powers, logs, f, j, usize::from(k));
        take_out(sums, powers, logs, f, y);
        d = product(powers, logs, f, d, x ^ y);
    }
    quotient(powers, logs, f, sums[0], d)
}

// Entry k of each row, a row having 64 places.
fn column(sums: &mut [u16], rows: &[u16], k: usize)
    requires { (k < 64) × (64 * length sums.old ≤ length rows.now) × (length sums.old ≤ 3) }
    ensures { sums.new ≡ map (λ l. get_or rows.now (64 * l + k) 0) (range 0 (length sums.old)) }
{
    for (l, sum) in sums.iter_mut().enumerate() {
        *sum = rows[64 * l + k];
    }
}

// S_(2k + 1) of the error of sub-word i, by the odd syndromes of nested words, whose rows have 64 places.
fn error_at(
    rows: &[u16],
    others: &[u16],
    powers: &[u16],
    logs: &[u16],
    f: Field,
    i: usize,
    k: usize,
) -> u16
    requires { Tables f powers.now logs.now × Below f.q rows.now × (length rows.now ≡ 192) × (length others.now ≤ 2) × (k < 64) × (i < 8)
        × All (λ j. j < 8) others.now × All (λ j. power f.q ((2 * k + 1) * j) ≢ power f.q ((2 * k + 1) * i)) others.now }
    ensures { result ≡ unmixed_at f.q rows.now others.now i k }
{
    let n = others.len() + 1;
    let mut room = [0u16; 3];
    let sums = &mut room[..n];
    column(sums, rows, k);
    weight_of(sums, others, powers, logs, f, 2 * k + 1, i)
}

// S_1, S_3, .. of the error of sub-word i, where no others than i and these have errors: as many as the list has places.
pub fn error_into(
    odd: &mut [u16],
    rows: &[u16],
    others: &[u16],
    powers: &[u16],
    logs: &[u16],
    f: Field,
    i: usize,
)
    requires { Tables f powers.now logs.now × Below f.q rows.now × (length rows.now ≡ 192) × (length others.now ≤ 2) × (length odd.old ≤ 64) × (i < 8)
        × All (λ j. j < 8) others.now × Apart f.q (length odd.old) i others.now }
    ensures { odd.new ≡ map (unmixed_at f.q rows.now others.now i) (range 0 (length odd.old)) }
{
    for (k, s) in odd.iter_mut().enumerate() {
        *s = error_at(rows, others, powers, logs, f, i, k);
    }
}
