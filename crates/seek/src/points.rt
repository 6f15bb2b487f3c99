// The rules that points, phrases and letters keep (refusals 13 and 14), in a seek body of good form beside a sequence body that reads.
ghost use Rattle.std.specs.Prelude.{◌≡◌, true, not, ◌≤◌, length};
ghost use Rattle.model.specs.Words.{◌and◌, ◌<?◌};
ghost use Rattle.model.specs.Item.{body_of, check_answer, found, is_fine, items_of};
ghost use Rattle.model.specs.Points.{is_span};
ghost use Rattle.model.specs.Seek.{seek_of};
ghost use Rattle.model.specs.Track.{point_width, points_of};
ghost use Rattle.seek.specs.Rules.{address_in, entries_hold, entry_holds, point_in};

use super::known::read_known;
use super::order::check_letters;
use super::said::read_points;
use items::is_address_from;
use model::{Points, Read, Refusal, SeekEntry, Voice, refused};

#[tactic(auto, using(items::proofs::Addresses::head_there))]
fn is_address(voice: Voice, body: &[u8], address: u32) -> bool
    requires body_len_bound { length body.now ≤ 65536 }
    requires body_value { is_fine (body_of voice body.now) ≡ true }
    ensures { result ≡ address_in voice body.now address }
{
    is_address_from(voice, body, 0, address as usize)
}

#[tactic(auto, using(crate::proofs::Holding::spans))]
fn is_span(voice: Voice, body: &[u8], start: u32, stop: u32) -> bool
    requires body_len_bound { length body.now ≤ 65536 }
    requires body_value { is_fine (body_of voice body.now) ≡ true }
    ensures { result ≡ is_span (address_in voice body.now) start stop }
{
    if stop < start {
        return false;
    }
    if !is_address(voice, body, start) {
        return false;
    }
    is_address_from(voice, body, start as usize, stop as usize)
}

// Whether a value is a point: an address, or with phrases a position in a list of so many letters.
#[tactic(auto, using(crate::proofs::Holding::numbered))]
fn is_point(voice: Voice, phrases: bool, body: &[u8], letters: usize, value: u32) -> bool
    requires body_len_bound { length body.now ≤ 65536 }
    requires body_value { is_fine (body_of voice body.now) ≡ true }
    ensures { result ≡ point_in voice phrases body.now letters value }
{
    if phrases {
        return value as usize <= letters;
    }
    is_address(voice, body, value)
}

// Whether a stop point is one, and not before the start.
#[tactic(auto, using(crate::proofs::Holding::numbered, model::proofs::Tests::tests, model::proofs::Tests::junctions))]
fn is_stop(voice: Voice, phrases: bool, body: &[u8], points: Points, value: u32) -> bool
    requires body_len_bound { length body.now ≤ 65536 }
    requires body_value { is_fine (body_of voice body.now) ≡ true }
    ensures { result ≡ (point_in voice phrases body.now points.letters value and not (value <? points.start)) }
{
    if !is_point(voice, phrases, body, points.letters, value) {
        return false;
    }
    points.start <= value
}

// Whether an entry keeps the rules, beside what all entries say.
#[tactic(auto, using(crate::proofs::Holding::holds_told), unfolding(crate::specs::Rules::entry_holds))]
fn entry_holds(voice: Voice, phrases: bool, body: &[u8], points: Points, entry: SeekEntry) -> bool
    requires body_len_bound { length body.now ≤ 65536 }
    requires body_value { is_fine (body_of voice body.now) ≡ true }
    ensures { result ≡ entry_holds (address_in voice body.now) (point_in voice phrases body.now points.letters) points.start entry }
{
    match entry {
        SeekEntry::Start(value) => is_point(voice, phrases, body, points.letters, value),
        SeekEntry::Stop(value) => is_stop(voice, phrases, body, points, value),
        SeekEntry::Phrase { start, stop, .. } => is_span(voice, body, start, stop),
        SeekEntry::Order { .. } => true,
    }
}

#[tactic(auto, using(crate::proofs::Holding::holding))]
fn check_entries(voice: Voice, phrases: bool, body: &[u8], s: &[u8]) -> Result<(), Refusal>
    requires body_len_bound { length body.now ≤ 65536 }
    requires body_value { is_fine (body_of voice body.now) ≡ true }
    requires s_len_bound { length s.now ≤ 65536 }
    requires s_value { is_fine (seek_of (point_width phrases) s.now) ≡ true }
    ensures { result ≡ check_answer (entries_hold phrases (items_of voice body.now) (length body.now) (found (seek_of (point_width phrases) s.now))) }
{
    let points = read_points(phrases, s);
    let mut at: usize = 0;
    while at < s.len() {
        let Read { what: entry, next } = read_known(phrases, s, at);
        if !entry_holds(voice, phrases, body, points, entry) {
            return refused(13, at);
        }
        at = next;
    }
    Ok(())
}

pub fn check_points(voice: Voice, phrases: bool, body: &[u8], s: &[u8]) -> Result<(), Refusal>
    requires body_len_bound { length body.now ≤ 65536 }
    requires body_value { is_fine (body_of voice body.now) ≡ true }
    requires s_len_bound { length s.now ≤ 65536 }
    requires s_value { is_fine (seek_of (point_width phrases) s.now) ≡ true }
    ensures { result ≡ check_answer (points_of phrases (items_of voice body.now) (length body.now) (found (seek_of (point_width phrases) s.now))) }
{
    check_entries(voice, phrases, body, s)?;
    if phrases {
        return check_letters(phrases, s);
    }
    Ok(())
}
