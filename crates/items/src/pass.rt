// Notes and waves whose duration and gate time take one byte each, as most items are: whether one stands at a place, and the place after an
// item of a body that is known to read, which for these is three bytes on, with nothing tested that such a body has passed.
ghost use Rattle.std.specs.Prelude.{◌≡◌, ◌<◌, length};
ghost use Rattle.model.specs.Item.{item_at};
ghost use Rattle.items.specs.Passing.{EndsAt, is_short};

use super::event::is_sound;
use super::item::read_item;
use model::{ReadItem, Voice};

fn pass_read(voice: Voice, s: &[u8], at: usize) -> usize
    ensures { EndsAt result (item_at voice s.now at) }
{
    match read_item(voice, s, at) {
        Ok(ReadItem::Timed { next, .. }) => next,
        Ok(ReadItem::EndMark { next }) => next,
        Err(_) => 0,
    }
}

#[tactic(auto, using(crate::proofs::Passing::short_ends))]
pub fn pass_item(voice: Voice, s: &[u8], at: usize) -> usize
    requires { at < length s.now }
    ensures { EndsAt result (item_at voice s.now at) }
{
    if 3 <= s.len() - at
        && s[at] < 128
        && s[at + 1] != 0x00
        && s[at + 1] != 0xFF
        && s[at + 2] < 128
    {
        return at + 3;
    }
    pass_read(voice, s, at)
}

// Whether a short note or wave stands at a place, and is not refused. Each byte is taken where it is tested: where all three are taken first, the gate
// time is tested before the duration, and a body of long durations takes half as long again.
#[tactic(auto, using(crate::proofs::Passing::shorts, model::proofs::Tests::tests, model::proofs::Tests::junctions), unfolding(crate::specs::Passing::is_short))]
pub fn is_short(voice: Voice, s: &[u8], at: usize) -> bool
    requires { at < length s.now }
    ensures { result ≡ is_short voice s.now at }
{
    3 <= s.len() - at
        && s[at] < 128
        && s[at + 1] != 0x00
        && s[at + 1] != 0xFF
        && s[at + 2] != 0
        && s[at + 2] < 128
        && is_sound(voice, s[at + 1])
}
