// The letters of an order list: each has a phrase (refusal 14).
ghost use Rattle.std.specs.Prelude.{◌≡◌, true, false, ◌<◌, ◌≤◌, length, get_or};
ghost use Rattle.model.specs.Item.{check_answer, found, is_fine};
ghost use Rattle.model.specs.Points.{order_holds};
ghost use Rattle.model.specs.Seek.{seek_of};
ghost use Rattle.model.specs.Track.{point_width};
ghost use Rattle.seek.specs.Rules.{Named, marked};

use super::known::read_known;
use super::said::read_points;
use model::{Read, Refusal, SeekEntry, refused};

// A phrase's letter is flagged.
#[tactic(auto, using(crate::proofs::Naming::marked_told, crate::proofs::Naming::marked_other), unfolding(crate::specs::Rules::marked))]
fn mark(flags: &mut [bool; 256], entry: SeekEntry)
    ensures { flags.new ≡ marked flags.old entry }
{
    if let SeekEntry::Phrase { letter, .. } = entry {
        flags[letter as usize] = true;
    }
}

// For each letter whether it has a phrase.
#[tactic(auto, using(crate::proofs::Naming::marking))]
fn name_letters(phrases: bool, s: &[u8]) -> [bool; 256]
    requires s_len_bound { length s.now ≤ 65536 }
    requires s_value { is_fine (seek_of (point_width phrases) s.now) ≡ true }
    ensures { Named (found (seek_of (point_width phrases) s.now)) result }
{
    let mut flags = [false; 256];
    let mut at: usize = 0;
    while at < s.len() {
        let Read { what: entry, next } = read_known(phrases, s, at);
        mark(&mut flags, entry);
        at = next;
    }
    flags
}

fn is_named(flags: &[bool; 256], letter: u8) -> bool
    ensures { (result ≡ get_or flags.now letter false) × (letter < 256) }
{
    flags[letter as usize]
}

// Not inlined: within the check of a whole file its loop counts in memory, and an order of 58,000 letters is read in 1.5 times as long.
#[inline(never)]
#[tactic(auto, using(crate::proofs::Naming::lettering))]
pub fn check_letters(phrases: bool, s: &[u8]) -> Result<(), Refusal>
    requires s_len_bound { length s.now ≤ 65536 }
    requires s_value { is_fine (seek_of (point_width phrases) s.now) ≡ true }
    ensures { result ≡ check_answer (order_holds (found (seek_of (point_width phrases) s.now))) }
{
    let points = read_points(phrases, s);
    let flags = name_letters(phrases, s);
    let end = points.order + points.letters;
    for at in points.order..end {
        if !is_named(&flags, s[at]) {
            return refused(14, at);
        }
    }
    Ok(())
}
