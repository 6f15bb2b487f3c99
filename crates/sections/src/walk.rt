// A body walked on from one address to another, or through an end mark before it.
ghost use Rattle.std.specs.Prelude.{◌≡◌, true, ◌≤◌, length};
ghost use Rattle.model.specs.Words.{◌and◌, ◌≤?◌};
ghost use Rattle.model.specs.Item.{body_of, is_fine, items_of};
ghost use Rattle.model.specs.Points.{is_address};
ghost use Rattle.sections.specs.Reaching.{heard_by, passed_by, Walked, Arrived};

use super::Taken;
use super::take::take_item;
use model::{Reached, Voice};

// Whether an item that stands at a place is an end mark where a walk ends.
#[tactic(auto, using(model::proofs::Tests::junctions))]
pub fn ends_here(mark: bool, marks: usize, place: usize) -> bool
    ensures { result ≡ (mark and (marks ≤? place)) }
{
    if mark {
        return marks <= place;
    }
    false
}

// How many messages an item is, by its word.
#[tactic(auto, using(model::proofs::Tests::tests), unfolding(crate::specs::Reaching::heard_by))]
fn heard_by(word: u32) -> usize
    ensures value { result ≡ heard_by word }
    ensures upper_bound { result ≤ 1 }
{
    if word == 0 {
        return 0;
    }
    1
}

// One item further.
#[tactic(auto, using(crate::proofs::Nearing::passing))]
fn pass_by(reached: Reached, item: Taken) -> Reached
    requires time_bound { reached.time ≤ 281474976710656 }
    requires messages_bound { reached.messages ≤ 65536 }
    ensures { result ≡ passed_by reached item.duration (heard_by item.word) item.next }
{
    let mut now = reached;
    now.at = item.next;
    now.messages = reached.messages + heard_by(item.word);
    if item.duration == 0 {
        return now;
    }
    now.time = reached.time + item.duration as u64;
    now.first = reached.at;
    now.past = reached.time;
    now.passed = reached.messages;
    now
}

// To an address, or through the first end mark that stands from a place on.
pub fn walk_to(voice: Voice, body: &[u8], reached: Reached, marks: usize, address: usize) -> Reached
    requires body_len_bound { length body.now ≤ 65536 }
    requires body_value { is_fine (body_of voice body.now) ≡ true }
    requires walked { Walked (items_of voice body.now) (length body.now) reached }
    requires address_value { is_address (items_of voice body.now) (length body.now) address ≡ true }
    requires at_le_marks { reached.at ≤ marks }
    requires at_le_address { reached.at ≤ address }
    ensures arrived { Arrived (items_of voice body.now) (length body.now) marks address result }
    ensures at_le_at { reached.at ≤ result.at }
{
    let mut now = reached;
    while now.at < address {
        if body.len() <= now.at {
            return now;
        }
        let place = now.at;
        let item = take_item(voice, body, place);
        now = pass_by(now, item);
        if ends_here(item.mark, marks, place) {
            return now;
        }
    }
    now
}
