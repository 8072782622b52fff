// The quote as bytes: 12 numbers in 24.
ghost use Rattle.code.specs.Calls.{QuoteMadeC};

use code::{Parameters, Refusal};
use numbers::store;

pub fn quote_bytes(p: Parameters, list: &mut [u8]) -> u32
    ensures { QuoteMadeC p list.old list.new result }
{
    let mut numbers = [0u16; 12];
    if let Err(e) = sizes::quote(p, &mut numbers) {
        return e.number() as u32;
    }
    if list.len() != 24 {
        return Refusal::List.number() as u32;
    }
    store(list, &numbers);
    0
}
