// All syndromes of a word of a level, from its odd ones in bytes.
ghost use Rattle.code.specs.Calls.{AllMade, AllMadeC};
ghost use Rattle.gii_bch.specs.All.{given};

use crate::answers::outcome_number;
use code::{Outcome, Parameters};
use numbers::{load, numbers_in, store_when};

// As numbers.
fn all_list(p: Parameters, level: u32, odd: &[u8], list: &mut [u16]) -> Outcome
    ensures { AllMade p level (given odd.now) list.old list.new result }
{
    let k = numbers_in(odd.len());
    let mut room = [0u16; 128];
    load(&mut room[..k], odd);
    oneword::all_syndromes(p, level, &room[..k], list)
}

// As bytes.
pub fn all_bytes(p: Parameters, level: u32, odd: &[u8], list: &mut [u8]) -> u32
    ensures { AllMadeC p level odd.now list.old list.new result }
{
    let k = numbers_in(list.len());
    let mut room = [0u16; 128];
    let r = all_list(p, level, odd, &mut room[..k]);
    let n = outcome_number(r);
    store_when(n, list, &room[..k]);
    n
}
