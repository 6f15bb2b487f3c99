// Items and end marks.
ghost use Rattle.std.specs.Prelude.{◌≡◌};
ghost use Rattle.model.specs.Item.{is_end_mark, with_event, with_duration, item_at};

use super::duration::read_duration;
use super::event::read_event;
use model::{Read, ReadItem, Refusal, Voice};

#[tactic(auto, using(model::proofs::Tests::junctions, model::proofs::Tests::tests, crate::proofs::Matches::rooms), unfolding(model::specs::Item::is_end_mark))]
fn is_end_mark(s: &[u8], at: usize) -> bool
    ensures { result ≡ is_end_mark s.now at }
{
    4 <= s.len()
        && at <= s.len() - 4
        && s[at] == 0
        && s[at + 1] == 0
        && s[at + 2] == 0
        && s[at + 3] == 0
}

#[tactic(auto, using(model::proofs::Tests::tests), unfolding(model::specs::Item::item_at, model::specs::Item::with_duration, model::specs::Item::with_event))]
pub fn read_item(voice: Voice, s: &[u8], at: usize) -> Result<ReadItem, Refusal>
    ensures { result ≡ item_at voice s.now at }
{
    if is_end_mark(s, at) {
        return Ok(ReadItem::EndMark { next: at + 4 });
    }
    let Read { what: value, next } = read_duration(s, at)?;
    let Read {
        what: event,
        next: after,
    } = read_event(voice, s, next)?;
    Ok(ReadItem::Timed {
        duration: value,
        event,
        next: after,
    })
}
