// A whole track.
ghost use Rattle.std.specs.Prelude.{◌≡◌, true, ◌+◌, ◌≤◌, length};
ghost use Rattle.model.specs.Item.{is_fine, found, check_answer};
ghost use Rattle.model.specs.Track.{track_of};
ghost use Rattle.chunks.specs.Kept.{chunks_in};
ghost use Rattle.tracks.specs.Stages.{bare, after_setup, after_parts, parts_then};

use super::body::{check_seek, check_sequence, check_setup};
use super::fixed::check_fixed;
use super::part::{body_of, find_part, has_waves};
use model::{FoundChunk, ListOf, Part, Refusal, Voice, refused};

// The sequence and the seek chunk of the track whose header is at a place and whose list is from start to end: 11; 12, 13, 14.
fn check_after_setup(
    voice: Voice,
    s: &[u8],
    header: usize,
    start: usize,
    end: usize,
    sequence: FoundChunk,
) -> Result<(), Refusal>
    requires header_in_bounds { (header + 10 ≤ length s.now) × (start ≤ end) × (end ≤ length s.now) × (length s.now ≤ 65536) }
    requires end_value { is_fine (chunks_in s.now start end) ≡ true }
    requires size_in_bounds { sequence.place + 8 + sequence.size ≤ length s.now }
    ensures { result ≡ check_answer (after_setup s.now voice (bare header 0) (found (chunks_in s.now start end)) (bare sequence.place sequence.size)) }
{
    check_sequence(voice, s, sequence.place, sequence.size)?;
    let seek = find_part(Part::Seek, voice, s, start, end);
    let phrases = s[header + 8 + 1] == 1;
    let body = body_of(s, sequence.place, sequence.size);
    check_seek(voice, phrases, body, s, seek)
}

// What is missing (9), the setup chunk (10), and what follows.
fn check_after_parts(
    voice: Voice,
    s: &[u8],
    header: usize,
    start: usize,
    end: usize,
) -> Result<(), Refusal>
    requires header_in_bounds { (header + 10 ≤ length s.now) × (start ≤ end) × (end ≤ length s.now) × (length s.now ≤ 65536) }
    requires end_value { is_fine (chunks_in s.now start end) ≡ true }
    ensures { result ≡ check_answer (after_parts s.now voice (bare header 0) (found (chunks_in s.now start end))) }
{
    let Some(sequence) = find_part(Part::Sequence, voice, s, start, end) else {
        return refused(9, header);
    };
    if !has_waves(voice, s, start, end) {
        return refused(9, header);
    }
    check_setup(s, find_part(Part::Setup, voice, s, start, end))?;
    check_after_setup(voice, s, header, start, end, sequence)
}

// The track whose header is at a place and whose body has a size.
pub fn check_track(voice: Voice, s: &[u8], place: usize, size: usize) -> Result<(), Refusal>
    requires size_in_bounds { place + 8 + size ≤ length s.now }
    requires s_len_bound { length s.now ≤ 65536 }
    ensures { result ≡ check_answer (track_of s.now voice (bare place size)) }
{
    check_fixed(voice, s, place, size)?;
    check_parts(voice, s, place, size)
}

// The list of a track whose fixed bytes hold (4, 9, 6), and what follows.
fn check_parts(voice: Voice, s: &[u8], place: usize, size: usize) -> Result<(), Refusal>
    requires size_in_bounds { place + 8 + size ≤ length s.now }
    requires le_size { 6 ≤ size }
    requires s_len_bound { length s.now ≤ 65536 }
    ensures { result ≡ check_answer (parts_then s.now voice (bare place size)) }
{
    let start = place + 8 + 6;
    let end = place + 8 + size;
    chunks::check_list(ListOf::Track(voice), s, start, end)?;
    check_after_parts(voice, s, place, start, end)
}
