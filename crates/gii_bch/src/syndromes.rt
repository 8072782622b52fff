// The odd syndromes of sub-word i, or, where `nested`, of nested word i.
ghost use Rattle.gii_bch.specs.Syndromes.{ListMade, ListMadeC};

use crate::answers::outcome_number;
use code::{Outcome, Parameters};
use numbers::{numbers_in, store_when};

// As numbers.
fn syndrome_list(nested: bool, p: Parameters, page: &[u8], i: usize, list: &mut [u16]) -> Outcome
    ensures { ListMade nested p page.now i list.old list.new result }
{
    if nested {
        return oneword::nested_syndromes(p, page, i, list);
    }
    oneword::syndromes(p, page, i, list)
}

// As bytes.
pub fn syndrome_bytes(nested: bool, p: Parameters, page: &[u8], i: usize, list: &mut [u8]) -> u32
    ensures { ListMadeC nested p page.now i list.old list.new result }
{
    let k = numbers_in(list.len());
    let mut room = [0u16; 128];
    let r = syndrome_list(nested, p, page, i, &mut room[..k]);
    let n = outcome_number(r);
    store_when(n, list, &room[..k]);
    n
}
