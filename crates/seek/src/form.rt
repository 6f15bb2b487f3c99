// The form of a seek body: every entry is whole, and they stand in order with no tag twice (refusal 12).
ghost use Rattle.std.specs.Prelude.{◌≡◌, ◌<◌, ◌≤◌, length};
ghost use Rattle.model.specs.Item.{check_answer};
ghost use Rattle.model.specs.Seek.{seek_of};
ghost use Rattle.model.specs.Track.{point_width};
ghost use Rattle.seek.specs.Next.{rank_of, slot_of};

use super::next::read_next;
use model::{Read, Refusal, SeekEntry, refused};

// What orders an entry among others: st, sp, phrases, SL.
#[tactic(auto, using(crate::proofs::Cases::rank_told), unfolding(crate::specs::Next::rank_of))]
fn rank_of(entry: SeekEntry) -> u8
    ensures { result ≡ rank_of entry }
{
    match entry {
        SeekEntry::Start(_) => 0,
        SeekEntry::Stop(_) => 1,
        SeekEntry::Phrase { .. } => 2,
        SeekEntry::Order { .. } => 3,
    }
}

// A number of its own for each tag: a phrase's is its letter, which is none of the others' numbers.
#[tactic(auto, using(crate::proofs::Cases::slot_told), unfolding(crate::specs::Next::slot_of))]
fn slot_of(entry: SeekEntry) -> usize
    ensures { (result ≡ slot_of entry) × (result < 256) }
{
    match entry {
        SeekEntry::Start(_) => 0,
        SeekEntry::Stop(_) => 1,
        SeekEntry::Phrase { letter, .. } => letter as usize,
        SeekEntry::Order { .. } => 2,
    }
}

#[tactic(auto, using(crate::proofs::Ordering::forming))]
pub fn check_form(phrases: bool, s: &[u8]) -> Result<(), Refusal>
    requires { length s.now ≤ 65536 }
    ensures { result ≡ check_answer (seek_of (point_width phrases) s.now) }
{
    if s.len() == 0 {
        return refused(12, 0);
    }
    let mut seen = [false; 256];
    let mut highest: u8 = 0;
    let mut at: usize = 0;
    while at < s.len() {
        let Some(Read { what: entry, next }) = read_next(phrases, s, at) else {
            return refused(12, at);
        };
        let slot = slot_of(entry);
        if seen[slot] {
            return refused(12, at);
        }
        let rank = rank_of(entry);
        if rank < highest {
            return refused(12, at);
        }
        seen[slot] = true;
        highest = rank;
        at = next;
    }
    Ok(())
}
