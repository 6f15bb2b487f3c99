// The bodies of a track: its setup chunk where there is one, its sequence, and its seek chunk where there is one.
ghost use Rattle.std.specs.Prelude.{◌≡◌, true, ◌+◌, ◌≤◌, length};
ghost use Rattle.model.specs.Words.{counted_from};
ghost use Rattle.model.specs.Bytes.{part};
ghost use Rattle.model.specs.Item.{is_fine, body_of, items_of, check_answer};
ghost use Rattle.model.specs.Track.{setup_holds, seek_in, entries_of};
ghost use Rattle.tracks.specs.Stages.{bare_of, Inside, Near, moved};

use super::part::body_of;
use model::{FoundChunk, Refusal, Voice, refused};

// A refusal whose place was counted from a body's head.
fn moved_by(base: usize, check: Result<(), Refusal>) -> Result<(), Refusal>
    requires base_bound { base ≤ 65536 }
    requires near { Near check }
    ensures { result ≡ moved base check }
{
    match check {
        Ok(()) => Ok(()),
        Err(why) => refused(why.number, base + why.place),
    }
}

pub fn check_setup(s: &[u8], setup: Option<FoundChunk>) -> Result<(), Refusal>
    requires inside { Inside s.now setup }
    requires s_len_bound { length s.now ≤ 65536 }
    ensures { result ≡ check_answer (setup_holds s.now (bare_of setup)) }
{
    let Some(chunk) = setup else {
        return Ok(());
    };
    let body = body_of(s, chunk.place, chunk.size);
    moved_by(chunk.place + 8, items::read_setup(body))
}

#[tactic(auto, using(crate::proofs::Bodies::items_whole, crate::proofs::Bodies::items_refused))]
fn check_items(voice: Voice, body: &[u8]) -> Result<(), Refusal>
    requires { length body.now ≤ 65536 }
    ensures { result ≡ check_answer (body_of voice body.now) }
{
    items::read_body(voice, body)?;
    Ok(())
}

// The sequence chunk whose header is at a place.
pub fn check_sequence(voice: Voice, s: &[u8], place: usize, size: usize) -> Result<(), Refusal>
    requires size_in_bounds { place + 8 + size ≤ length s.now }
    requires s_len_bound { length s.now ≤ 65536 }
    ensures { result ≡ check_answer (counted_from (place + 8) (body_of voice (part s.now (place + 8) size))) }
{
    let body = body_of(s, place, size);
    moved_by(place + 8, check_items(voice, body))
}

#[tactic(auto, using(crate::proofs::Bodies::forms))]
fn check_entries(voice: Voice, phrases: bool, body: &[u8], entries: &[u8]) -> Result<(), Refusal>
    requires body_len_bound { length body.now ≤ 65536 }
    requires body_value { is_fine (body_of voice body.now) ≡ true }
    requires entries_len_bound { length entries.now ≤ 65536 }
    ensures { result ≡ check_answer (seek_in phrases (items_of voice body.now) (length body.now) entries.now) }
{
    seek::check_form(phrases, entries)?;
    seek::check_points(voice, phrases, body, entries)
}

// The seek chunk, where there is one, of a track whose sequence body reads.
pub fn check_seek(
    voice: Voice,
    phrases: bool,
    body: &[u8],
    s: &[u8],
    found: Option<FoundChunk>,
) -> Result<(), Refusal>
    requires body_len_bound { length body.now ≤ 65536 }
    requires body_value { is_fine (body_of voice body.now) ≡ true }
    requires inside { Inside s.now found }
    requires s_len_bound { length s.now ≤ 65536 }
    ensures { result ≡ check_answer (entries_of phrases (items_of voice body.now) (length body.now) s.now (bare_of found)) }
{
    let Some(chunk) = found else {
        return Ok(());
    };
    let entries = body_of(s, chunk.place, chunk.size);
    moved_by(
        chunk.place + 8,
        check_entries(voice, phrases, body, entries),
    )
}
