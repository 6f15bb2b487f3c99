// One chunk of the top level: whether it is opened, its check, and how many rows it brings.
ghost use Rattle.std.specs.Prelude.{◌≡◌, true, Some, Ok, ◌+◌, ◌≤◌, length};
ghost use Rattle.model.specs.Item.{is_fine, found};
ghost use Rattle.model.specs.Track.{score_voice, pcm_voice, voice_of};
ghost use Rattle.model.specs.File.{opened, top_of};
ghost use Rattle.chunks.specs.Kept.{chunks_in};
ghost use Rattle.reading.specs.Stages.{placed, top_answer, Few};

use model::{Refusal, Voice, refused};

// A score track, whose first byte is its format.
#[tactic(auto, using(model::proofs::Tests::tests, model::proofs::Tests::first_true, model::proofs::Tests::second_true, model::proofs::Tests::neither_true), unfolding(model::specs::Track::score_voice))]
fn score_voice(s: &[u8], body: usize, size: usize) -> Result<Option<Voice>, Refusal>
    requires { body + size ≤ length s.now }
    ensures { result ≡ score_voice s.now body size }
{
    if size == 0 || 3 <= s[body] {
        return refused(8, body);
    }
    if s[body] == 0 {
        return Ok(Some(Voice::Score));
    }
    Ok(None)
}

// A PCM track, whose first byte is its format.
#[tactic(auto, using(model::proofs::Tests::tests, model::proofs::Tests::first_true, model::proofs::Tests::second_true, model::proofs::Tests::neither_true), unfolding(model::specs::Track::pcm_voice))]
fn pcm_voice(s: &[u8], body: usize, size: usize) -> Result<Option<Voice>, Refusal>
    requires { body + size ≤ length s.now }
    ensures { result ≡ pcm_voice s.now body size }
{
    if size == 0 || s[body] != 0 {
        return refused(8, body);
    }
    Ok(Some(Voice::Pcm))
}

#[tactic(auto, using(model::proofs::Tests::if_yes, model::proofs::Tests::if_no, model::proofs::Tests::is_on, model::proofs::Tests::is_off, numbers::proofs::Sizes::family), unfolding(model::specs::Track::voice_of))]
pub fn voice_of(s: &[u8], place: usize, size: usize) -> Result<Option<Voice>, Refusal>
    requires { place + 8 + size ≤ length s.now }
    ensures { result ≡ voice_of s.now (placed s.now place size) }
{
    if numbers::stands_at(s, place, b"MTR") {
        return score_voice(s, place + 8, size);
    }
    if numbers::stands_at(s, place, b"ATR") {
        return pcm_voice(s, place + 8, size);
    }
    Ok(None)
}

// How many chunks a list has.
fn count_chunks(s: &[u8], start: usize, end: usize) -> usize
    requires start_le_end { (start ≤ end) × (end ≤ length s.now) × (end ≤ 65536) }
    requires end_value { is_fine (chunks_in s.now start end) ≡ true }
    ensures { (result ≡ length (found (chunks_in s.now start end))) × (result ≤ 65536) }
{
    let mut count: usize = 0;
    let mut at = start;
    while at < end {
        let Some(chunk) = chunks::read_chunk(s, end, at) else {
            return count;
        };
        count += 1;
        at = chunk.next;
    }
    count
}

// A track that is opened in a voice.
fn check_opened(voice: Voice, s: &[u8], place: usize, size: usize) -> Result<usize, Refusal>
    requires size_in_bounds { place + 8 + size ≤ length s.now }
    requires s_len_bound { length s.now ≤ 65536 }
    ensures value { result ≡ top_answer (opened s.now (placed s.now place size) (Some voice)) }
    ensures few { Few result }
{
    tracks::check_track(voice, s, place, size)?;
    Ok(1 + count_chunks(s, place + 8 + 6, place + 8 + size))
}

pub fn check_top(s: &[u8], place: usize, size: usize) -> Result<usize, Refusal>
    requires size_in_bounds { place + 8 + size ≤ length s.now }
    requires s_len_bound { length s.now ≤ 65536 }
    ensures value { result ≡ top_answer (top_of s.now (placed s.now place size)) }
    ensures few { Few result }
{
    match voice_of(s, place, size)? {
        Some(voice) => check_opened(voice, s, place, size),
        None => Ok(1),
    }
}

// How many rows a chunk of the top level brings that passed its check.
pub fn count_rows(s: &[u8], place: usize, size: usize) -> usize
    requires size_in_bounds { place + 8 + size ≤ length s.now }
    requires s_len_bound { length s.now ≤ 65536 }
    requires size_value { is_fine (top_of s.now (placed s.now place size)) ≡ true }
    ensures result_value { Ok result ≡ top_answer (top_of s.now (placed s.now place size)) }
    ensures upper_bound { result ≤ 65537 }
{
    let Ok(Some(_)) = voice_of(s, place, size) else {
        return 1;
    };
    1 + count_chunks(s, place + 8 + 6, place + 8 + size)
}
