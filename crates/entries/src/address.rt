// Addresses in the body that given items make. The front is where the check of the items stands: it goes on to each address that is asked for, so that addresses in
// their order are told while the items are checked, and cost no walk of their own.
ghost use Rattle.std.specs.Prelude.{◌≡◌, false, ◌<◌};
ghost use Rattle.model.specs.Words.{◌≡?◌};
ghost use Rattle.entries.specs.Places.{is_place, Stands, Front, Came};

use model::Voice;
use writing::{given_length, given_size, is_short};

// So many items, and the place behind them.
#[derive(Clone, Copy)]
pub struct Cursor {
    pub index: usize,
    pub place: usize,
}

// The front at an address or past it, or at the first item that is at fault, or behind the last.
pub fn advance(source: &[u8], items: &[u32], front: Cursor, address: u32) -> Cursor
    requires { Front source.now items.now front }
    ensures { Came source.now items.now result address }
{
    let count = items.len() / 2;
    let wanted = address as usize;
    let mut place = front.place;
    for index in front.index..count {
        if wanted <= place {
            return Cursor { index, place };
        }
        let duration = items[2 * index];
        let word = items[2 * index + 1];
        if is_short(Voice::Score, duration, word) {
            place += 3;
        } else {
            let length = given_length(Voice::Score, source, duration, word);
            if length == 0 {
                return Cursor { index, place };
            }
            place += length;
        }
    }
    Cursor {
        index: count,
        place,
    }
}

// The first place from an address on, looked for from the first item on, or the last of all places.
#[tactic(auto, using(crate::proofs::Reaching::reaching))]
fn reach(items: &[u32], address: u32) -> usize
    ensures { (result ≡? address) ≡ is_place items.now address }
{
    let count = items.len() / 2;
    let wanted = address as usize;
    let mut place: usize = 0;
    for index in 0..count {
        if wanted <= place {
            return place;
        }
        place += given_size(items[2 * index], items[2 * index + 1]);
    }
    place
}

// Whether a number is an address, from a front that came to it or past it. One that lies behind the front is looked for anew.
pub fn is_address(items: &[u32], front: Cursor, address: u32) -> bool
    requires { Stands items.now front }
    ensures { (front.place < address → is_place items.now address ≡ false) → result ≡ is_place items.now address }
{
    let wanted = address as usize;
    if wanted == front.place {
        return true;
    }
    if front.place < wanted {
        return false;
    }
    reach(items, address) == wanted
}
