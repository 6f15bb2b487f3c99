// The track that a row names, in a file that passed its check.
ghost use Rattle.std.specs.Prelude.{◌≡◌, true, ◌+◌, ◌≤◌, length};
ghost use Rattle.model.specs.Item.{is_fine};
ghost use Rattle.model.specs.File.{top_of, contents_of};
ghost use Rattle.reading.specs.Stages.{placed, tops_of, top_at, found_top, found_track};

use super::top::{count_rows, voice_of};
use model::FoundTrack;

// The track of a chunk of the top level.
#[tactic(auto, using(crate::proofs::Finding::top_tracks))]
fn track_at(s: &[u8], place: usize, size: usize) -> Option<FoundTrack>
    requires size_in_bounds { place + 8 + size ≤ length s.now }
    requires size_value { is_fine (top_of s.now (placed s.now place size)) ≡ true }
    ensures { result ≡ found_track (found_top (top_of s.now (placed s.now place size))) }
{
    let Ok(Some(voice)) = voice_of(s, place, size) else {
        return None;
    };
    Some(FoundTrack { voice, place, size })
}

pub fn find_track(s: &[u8], row: usize) -> Option<FoundTrack>
    requires s_len_bound { length s.now ≤ 65536 }
    requires s_value { is_fine (contents_of s.now) ≡ true }
    ensures { result ≡ found_track (top_at row 1 (tops_of (contents_of s.now))) }
{
    let end = s.len() - 2;
    let mut k: usize = 1;
    let mut at: usize = 8;
    while at < end {
        let chunk = chunks::read_chunk(s, end, at)?;
        if k == row {
            return track_at(s, at, chunk.size);
        }
        k += count_rows(s, at, chunk.size);
        at = chunk.next;
    }
    None
}
