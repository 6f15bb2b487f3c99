// From an entry to the next one: what the walks of a seek body go by.
ghost use Rattle.std.specs.Prelude.{◌≡◌, ◌≤◌, length};
ghost use Rattle.model.specs.Track.{point_width};
ghost use Rattle.seek.specs.Next.{next_at};

use super::entry::read_entry;
use model::{Read, SeekEntry};

// The entry at a place, and the place of the next one.
#[tactic(auto, using(crate::proofs::Cases::nexts))]
pub fn read_next(phrases: bool, s: &[u8], at: usize) -> Option<Read<SeekEntry>>
    requires at_in_bounds { at ≤ length s.now }
    requires s_len_bound { length s.now ≤ 65536 }
    ensures { result ≡ next_at (point_width phrases) s.now at }
{
    let Read { what: entry, next } = read_entry(phrases, s, at)?;
    if s.len() <= next {
        return Some(Read { what: entry, next });
    }
    if s[next] != 0x2C {
        return None;
    }
    Some(Read {
        what: entry,
        next: next + 1,
    })
}
