// The walk of a sequence body from one of its addresses on: where two addresses are asked for, the second need not be walked to from the
// body's head.
ghost use Rattle.std.specs.Prelude.{◌≡◌, true, ◌≤◌, length};
ghost use Rattle.model.specs.Item.{body_of, is_fine, items_of};
ghost use Rattle.model.specs.Points.{is_address};

use super::pass::pass_item;
use model::Voice;

// Whether a number is an address of a body that reads, which is not before another one. Not inlined, so that its loop has registers of its own.
#[inline(never)]
pub fn is_address_from(voice: Voice, s: &[u8], from: usize, address: usize) -> bool
    requires s_len_bound { length s.now ≤ 65536 }
    requires s_value { is_fine (body_of voice s.now) ≡ true }
    requires from_value { is_address (items_of voice s.now) (length s.now) from ≡ true }
    requires from_le_address { from ≤ address }
    ensures { result ≡ is_address (items_of voice s.now) (length s.now) address }
{
    let mut at = from;
    while at < address {
        if s.len() <= at {
            return false;
        }
        at = pass_item(voice, s, at);
    }
    at == address
}
