// The entries of a body of good form, where an order list is the last one: what the walks go by once the form is checked. The letters of
// the list are not counted again, since they end where the body ends.
ghost use Rattle.std.specs.Prelude.{◌≡◌, ◌≤◌, length, Some};
ghost use Rattle.model.specs.Track.{point_width};
ghost use Rattle.seek.specs.Next.{KnownAt, next_at};

use super::next::read_next;
use model::{Read, SeekEntry};
use numbers::stands_at;

// The entry at a place, and the place of the next one, as `read_next` has them.
#[tactic(auto, using(crate::proofs::LastList::lists))]
pub fn read_known(phrases: bool, s: &[u8], at: usize) -> Read<SeekEntry>
    requires s_len_bound { length s.now ≤ 65536 }
    requires known_at { KnownAt (point_width phrases) s.now at }
    ensures { Some result ≡ next_at (point_width phrases) s.now at }
{
    if !stands_at(s, at, b"SL") {
        return read_next(phrases, s, at).unwrap();
    }
    let from = at + 3;
    let next = s.len();
    if s[next - 1] == 0x2C {
        return Read {
            what: SeekEntry::Order {
                letters: next - 1 - from,
            },
            next,
        };
    }
    Read {
        what: SeekEntry::Order {
            letters: next - from,
        },
        next,
    }
}
