// One sub-word mended, the places that were flipped in bytes.
ghost use Rattle.code.specs.Calls.{MendedC};

use crate::answers::outcome_number;
use code::Parameters;
use numbers::{numbers_in, store_when};

pub fn mend_bytes(p: Parameters, page: &mut [u8], i: usize, list: &mut [u8], flips: &mut u8) -> u32
    ensures { MendedC p page.old page.new i list.old list.new flips.old flips.new result }
{
    let k = numbers_in(list.len());
    let mut room = [0u16; 128];
    let r = mend::mend(p, page, i, &mut room[..k], flips);
    let n = outcome_number(r);
    store_when(n, list, &room[..k]);
    n
}
