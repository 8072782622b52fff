// The places of an error by its syndromes: Berlekamp's and Massey's locator, the search of places, and a last look.
#![tactic(auto)]

ghost use Rattle.std.specs.Prelude.{◌≡◌, map, ◌-◌, ◌*◌, ◌<◌, ◌≤◌, ◌^◌, IfSome, length};
ghost use Rattle.code.specs.Lists.{range};
ghost use Rattle.element.specs.Lent.{Tables};
ghost use Rattle.locator.specs.Locate as L;
ghost use Rattle.locator.specs.Locate.{agree};
ghost use Rattle.massey.specs.Entries.{Below};
ghost use Rattle.massey.specs.Steps.{Zeroed};
ghost use Rattle.syndrome.specs.Places.{Places};
ghost use Rattle.syndrome.specs.Sum.{Roots};
ghost use Rattle.locating.specs.Look.{from_list, front, listed};

use element::Field;

// The word with ones at the places of the list has the odd syndromes S_1, S_3, .., t of them, and so all to S_(2t).
fn agrees(powers: &[u16], f: Field, odd: &[u16], list: &[u16]) -> bool
    requires { Roots f powers.now × (length list.now ≤ 64) × Places (2 ^ f.q - 1) (length list.now) list.now
        × (length odd.now ≤ 64) }
    ensures { result ≡ agree f.q (from_list f.q odd.now) list.now (2 * length odd.now) }
{
    let t = odd.len();
    let mut room = [0u16; 64];
    syndrome::odd_sums(&mut room[..t], powers, f, list);
    &room[..t] == odd
}

// In rooms of more than t entries, all 0; s are all syndromes.
fn locate_in(
    powers: &[u16],
    logs: &[u16],
    f: Field,
    s: &[u16],
    odd: &[u16],
    t: usize,
    z: usize,
    sig: &mut [u16],
    old: &mut [u16],
    list: &mut [u16],
) -> Option<usize>
    requires { Tables f powers.now logs.now × Below f.q s.now × (t ≤ 64) × (2 * t ≤ length s.now) × (2 * t < 2 ^ f.q - 1) × (z ≤ 2 ^ f.q - 1)
        × (t ≤ length list.old) × (t < length sig.old) × (length sig.old ≡ length old.old) × Zeroed sig.old × Zeroed old.old
        × (length odd.now ≡ t) × (s.now ≡ map (from_list f.q odd.now) (range 1 (2 * t))) }
    ensures { L.locate f.q (listed s.now) t z ≡ front result list.new × IfSome result (λ c. c ≤ t) }
{
    let l = massey::massey(powers, logs, f, s, t, sig, old);
    if t < l {
        return None;
    }
    let c = search::roots(powers, logs, f, sig, l, z, list);
    if c <= t && agrees(powers, f, odd, &list[..c]) {
        Some(c)
    } else {
        None
    }
}

// The places, rising and below z, of the error of at most t places with the odd syndromes S_1, S_3, .., t of them, if there is
// one: their number, and they stand first in the list.
pub fn locate(
    powers: &[u16],
    logs: &[u16],
    f: Field,
    odd: &[u16],
    t: usize,
    z: usize,
    list: &mut [u16],
) -> Option<usize>
    requires { Tables f powers.now logs.now × Below f.q odd.now × (t ≤ 64) × (length odd.now ≡ t) × (2 * t < 2 ^ f.q - 1) × (z ≤ 2 ^ f.q - 1)
        × (t ≤ length list.old) }
    ensures { L.locate f.q (from_list f.q odd.now) t z ≡ front result list.new × IfSome result (λ c. c ≤ t) }
{
    let mut all = [0u16; 128];
    let k = 2 * t;
    let s = &mut all[..k];
    syndrome::all_into(s, odd, powers, logs, f);
    let mut room = [0u16; 65];
    let mut spare = [0u16; 65];
    let n = t + 1;
    let sig = &mut room[..n];
    let old = &mut spare[..n];
    locate_in(powers, logs, f, s, odd, t, z, sig, old, list)
}
