// LIST: the listing of an input, as text in lent memory. The answer and the memory are those of model/specs/ListingText, for any input and
// any memory.
ghost use Rattle.std.specs.Prelude.{◌≡◌, true, ◌≤◌, min, length};
ghost use Rattle.std.proofs.lemmas.List.Edits.{sets};
ghost use Rattle.model.specs.Item.{is_fine};
ghost use Rattle.model.specs.File.{contents_of};
ghost use Rattle.model.specs.Answer.{play_of};
ghost use Rattle.model.specs.Listing.{listing_of};
ghost use Rattle.model.specs.ListingText.{listing_text, room_asked, list_answer, list_memory};
ghost use Rattle.reading.specs.Stages.{tops_of};
ghost use Rattle.lines.specs.Fields.{play_listed};
ghost use Rattle.lines.specs.Tops.{first_of, first_listed};

use super::first::first_track;
use super::rows::{write_listing, write_refusal};
use model::{FirstTrack, PlayAnswer, Refusal};

// The room that is asked for: 4,096 lines of at most 118 bytes each, the head line and the end.
const ROOM: usize = 500000;

// The listing of the track that a row names, played into two tables.
fn list_played(
    input: &[u8],
    row: usize,
    milliseconds: u32,
    steps: &mut [u64],
    words: &mut [u32],
    out: &mut [u8],
) -> usize
    requires room_asked_in_bounds { room_asked ≤ length out.old }
    requires milliseconds_bound { milliseconds ≤ 50 }
    requires steps_len_bound { length steps.old ≤ 4096 }
    ensures value { result ≡ length (listing_text (play_listed milliseconds (play_of input.now (length input.now) row (min (length steps.old) (length words.old))))) }
    ensures within { result ≤ room_asked }
    ensures out_after { out.new ≡ sets out.old 0 (listing_text (play_listed milliseconds (play_of input.now (length input.now) row (min (length steps.old) (length words.old))))) }
{
    match playing::play(input, input.len(), row, steps, words) {
        Err(why) => write_refusal(out, why),
        Ok(PlayAnswer { count, end }) => write_listing(out, steps, words, count, end, milliseconds),
    }
}

fn list_track(input: &[u8], row: usize, milliseconds: u32, out: &mut [u8]) -> usize
    requires room_asked_in_bounds { room_asked ≤ length out.old }
    requires milliseconds_bound { milliseconds ≤ 50 }
    ensures value { result ≡ length (listing_text (play_listed milliseconds (play_of input.now (length input.now) row 4096))) }
    ensures within { result ≤ room_asked }
    ensures out_after { out.new ≡ sets out.old 0 (listing_text (play_listed milliseconds (play_of input.now (length input.now) row 4096))) }
{
    let mut steps = [0u64; 4096];
    let mut words = [0u32; 4096];
    list_played(input, row, milliseconds, &mut steps, &mut words, out)
}

// The listing of a file that was accepted.
#[tactic(auto, using(crate::proofs::Listings::first_tracks))]
fn list_accepted(input: &[u8], out: &mut [u8]) -> usize
    requires room_asked_in_bounds { room_asked ≤ length out.old }
    requires input_len_bound { length input.now ≤ 65536 }
    requires input_value { is_fine (contents_of input.now) ≡ true }
    ensures value { result ≡ length (listing_text (first_listed input.now (first_of 1 (tops_of (contents_of input.now))))) }
    ensures within { result ≤ room_asked }
    ensures out_after { out.new ≡ sets out.old 0 (listing_text (first_listed input.now (first_of 1 (tops_of (contents_of input.now))))) }
{
    match first_track(input) {
        None => write_refusal(
            out,
            Refusal {
                number: 16,
                place: 0,
            },
        ),
        Some(FirstTrack { row, milliseconds }) => list_track(input, row, milliseconds, out),
    }
}

// The listing of an input, read into a table of 4,096 rows.
#[tactic(auto, using(crate::proofs::Listings::read_files, crate::proofs::Listings::unread_files))]
fn list_read(input: &[u8], rows: &mut [u32], out: &mut [u8]) -> usize
    requires room_asked_in_bounds { room_asked ≤ length out.old }
    requires rows_len { length rows.old ≡ 16384 }
    ensures value { result ≡ length (listing_text (listing_of input.now)) }
    ensures within { result ≤ room_asked }
    ensures out_after { out.new ≡ sets out.old 0 (listing_text (listing_of input.now)) }
{
    match reading::read(input, input.len(), rows) {
        Err(why) => write_refusal(out, why),
        Ok(_) => list_accepted(input, out),
    }
}

fn list_input(input: &[u8], out: &mut [u8]) -> usize
    requires { room_asked ≤ length out.old }
    ensures value { result ≡ length (listing_text (listing_of input.now)) }
    ensures within { result ≤ room_asked }
    ensures out_after { out.new ≡ sets out.old 0 (listing_text (listing_of input.now)) }
{
    let mut rows = [0u32; 16384];
    list_read(input, &mut rows, out)
}

#[tactic(auto, using(crate::proofs::Listings::rooms))]
pub fn list(input: &[u8], out: &mut [u8]) -> Option<usize>
    ensures value { result ≡ list_answer input.now (length out.old) }
    ensures out_after { out.new ≡ list_memory input.now out.old }
{
    if out.len() < ROOM {
        return None;
    }
    Some(list_input(input, out))
}
