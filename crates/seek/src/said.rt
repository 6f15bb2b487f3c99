// What the entries of a seek body of good form say: its points and order list, and a letter's phrase.
ghost use Rattle.std.specs.Prelude.{◌≡◌, true, ◌<◌, ◌≤◌, length};
ghost use Rattle.model.specs.Item.{found, is_fine};
ghost use Rattle.model.specs.Seek.{found_phrase, phrase_of, points_said, seek_of};
ghost use Rattle.model.specs.Track.{point_width};
ghost use Rattle.seek.specs.Said.{noted, phrase_named};

use super::known::read_known;
use model::{PhraseAddresses, Points, Read, SeekEntry};

// The points said so far, with what the entry at a place adds.
#[tactic(auto, using(crate::proofs::Cases::noted_told), unfolding(crate::specs::Said::noted))]
fn note(points: Points, at: usize, entry: SeekEntry) -> Points
    requires { at < 65536 }
    ensures { result ≡ noted points at entry }
{
    let mut said = points;
    match entry {
        SeekEntry::Start(value) => {
            said.starts = true;
            said.start = value;
        }
        SeekEntry::Stop(value) => {
            said.stops = true;
            said.stop = value;
        }
        SeekEntry::Phrase { .. } => {}
        SeekEntry::Order { letters } => {
            said.ordered = true;
            said.order = at + 3;
            said.letters = letters;
        }
    }
    said
}

#[tactic(auto, using(crate::proofs::Saying::pointing))]
pub fn read_points(phrases: bool, s: &[u8]) -> Points
    requires s_len_bound { length s.now ≤ 65536 }
    requires s_value { is_fine (seek_of (point_width phrases) s.now) ≡ true }
    ensures { result ≡ points_said (found (seek_of (point_width phrases) s.now)) }
{
    let mut points = Points {
        starts: false,
        start: 0,
        stops: false,
        stop: 0,
        ordered: false,
        order: 0,
        letters: 0,
    };
    let mut at: usize = 0;
    while at < s.len() {
        let Read { what: entry, next } = read_known(phrases, s, at);
        points = note(points, at, entry);
        at = next;
    }
    points
}

// The phrase that an entry names, where it is the letter's.
#[tactic(auto, using(model::proofs::Tests::tests, crate::proofs::Cases::named_told, crate::proofs::Cases::named_other), unfolding(crate::specs::Said::phrase_named))]
fn phrase_in(wanted: u8, entry: SeekEntry) -> Option<PhraseAddresses>
    ensures { result ≡ phrase_named wanted entry }
{
    let SeekEntry::Phrase {
        letter,
        start,
        stop,
    } = entry
    else {
        return None;
    };
    if letter != wanted {
        return None;
    }
    Some(PhraseAddresses { start, stop })
}

#[tactic(auto, using(crate::proofs::Saying::searching))]
pub fn find_phrase(phrases: bool, s: &[u8], letter: u8) -> Option<PhraseAddresses>
    requires s_len_bound { length s.now ≤ 65536 }
    requires s_value { is_fine (seek_of (point_width phrases) s.now) ≡ true }
    ensures { result ≡ found_phrase (phrase_of letter (found (seek_of (point_width phrases) s.now))) }
{
    let mut at: usize = 0;
    while at < s.len() {
        let Read { what: entry, next } = read_known(phrases, s, at);
        if let Some(phrase) = phrase_in(letter, entry) {
            return Some(phrase);
        }
        at = next;
    }
    None
}
