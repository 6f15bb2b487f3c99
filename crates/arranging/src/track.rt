// One track as it is given, from the stretches of the tables that hold it.
ghost use Rattle.std.specs.Prelude.{◌≡◌, true, ◌++◌, ◌+◌, ◌-◌, ◌*◌, ◌≤◌, ◌<◌, length};
ghost use Rattle.std.proofs.lemmas.List.Edits.{sets};
ghost use Rattle.model.specs.Words.{◌≡?◌, told_at};
ghost use Rattle.model.specs.Item.{is_fine};
ghost use Rattle.model.specs.Bytes.{◌!◌, part, MTR, Mtsq};
ghost use Rattle.model.specs.Writing.{items_given};
ghost use Rattle.model.specs.SeekBytes.{entries_given};
ghost use Rattle.model.specs.ChunkBytes.{number_bytes, chunk_bytes};
ghost use Rattle.model.specs.Tables.{fixed_given, track_given};
ghost use Rattle.writing.specs.Parts.{limited, list_bytes};
ghost use Rattle.entries.specs.Rows.{rows_in, seek_size};
ghost use Rattle.arranging.specs.Apart.{given_at, Apart};
ghost use Rattle.arranging.specs.Stages.{given_of, track_answer, track_given_bytes, seek_of, inside_of};

use super::tables::Stretches;
use entries::{Told, advance, judge_entries, seek_size, write_header};
use model::{Refusal, Voice, refused};
use writing::{check_from, copy_part, limited_sum, write_list};

// The fixed bytes of a score track of type 0x00.
#[tactic(auto, using(crate::proofs::TrackStores::fixed_bytes))]
fn has_fixed(head: &[u8]) -> bool
    requires { length head.now ≡ 7 }
    ensures { result ≡ is_fine (fixed_given (part head.now 1 6)) }
{
    if head[1] != 0 {
        return false;
    }
    tracks::fixed_fits(Voice::Score, head, 1)
}

// How many bytes a track takes whose items take so many.
#[tactic(auto, using(crate::proofs::TrackChecks::track_sum))]
fn track_size(phrases: bool, letters: &[u8], entries: &[u32], body: usize) -> usize
    ensures { result ≡ limited (seek_size phrases letters.now (rows_in entries.now) + body + 22) }
{
    let seek = seek_size(phrases, letters, entries);
    limited_sum(limited_sum(seek, body), 22)
}

// How many bytes a track takes, or what is wrong with it. The entries are judged first, as far as the items allow: their addresses are told while the front goes over the
// items. It then goes on to the last item, and what is wrong with the items comes before what is wrong with the entries.
fn check_track(
    index: usize,
    head: &[u8],
    entries: &[u32],
    items: &[u32],
    letters: &[u8],
    source: &[u8],
) -> Result<usize, Refusal>
    requires { length head.now ≡ 7 }
    ensures { result ≡ track_answer (told_at index (track_given (given_of head.now entries.now items.now letters.now source.now))) }
{
    if !has_fixed(head) {
        return refused(8, index);
    }
    let phrases = head[2] == 1;
    let Told {
        fault,
        front: reached,
    } = judge_entries(phrases, letters, entries, source, items);
    let front = advance(source, items, reached, 0xFFFFFFFF);
    match check_from(Voice::Score, source, items, front.index, front.place) {
        Err(why) => refused(why.number, index),
        Ok(_) if fault != 0 => refused(fault, index),
        Ok(length) => Ok(track_size(phrases, letters, entries, length)),
    }
}

// The track whose numbers and bytes begin at two places.
pub fn check_at(
    index: usize,
    numbers: &[u32],
    p: usize,
    bytes: &[u8],
    q: usize,
    parts: Stretches,
) -> Result<usize, Refusal>
    requires { Apart numbers.now bytes.now p q parts }
    ensures { result ≡ track_answer (told_at index (track_given (given_at numbers.now bytes.now p q))) }
{
    let from = p + 4;
    let items = parts.items;
    let numbered = parts.numbers;
    let behind = q + 7;
    let source = parts.source;
    let end = parts.bytes;
    check_track(
        index,
        &bytes[q..behind],
        &numbers[from..items],
        &numbers[items..numbered],
        &bytes[behind..source],
        &bytes[source..end],
    )
}

// The ID of a score track: "MTR" and its number.
fn track_id(number: u8) -> u32
    ensures { result ≡ MTR * 256 + number }
{
    0x4D545200 + number as u32
}

// A chunk's header at a place, for the body that stands behind it up to an end.
fn close_chunk(out: &mut [u8], at: usize, id: u32, end: usize)
    requires at_bound { (at + 8 ≤ end) × (end ≤ length out.old) }
    requires end_bound { end ≤ at + 8 + 65536 }
    ensures { out.new ≡ sets out.old at (number_bytes 4 id ++ number_bytes 4 (end - (at + 8))) }
{
    write_header(out, at, id, end - (at + 8));
}

// The sequence chunk of items that can be written. Returns the place after it.
fn write_sequence(items: &[u32], source: &[u8], out: &mut [u8], at: usize) -> usize
    requires value { is_fine (items_given Voice.Score source.now items.now) ≡ true }
    requires in_bounds { at + 8 + length (list_bytes (items_given Voice.Score source.now items.now)) ≤ length out.old }
    requires len_bound { length (list_bytes (items_given Voice.Score source.now items.now)) ≤ 65536 }
    ensures value_2 { result ≡ at + length (chunk_bytes Mtsq (list_bytes (items_given Voice.Score source.now items.now))) }
    ensures out_after { out.new ≡ sets out.old at (chunk_bytes Mtsq (list_bytes (items_given Voice.Score source.now items.now))) }
{
    let end = write_list(Voice::Score, source, items, out, at + 8);
    close_chunk(out, at, 0x4D747371, end);
    end
}

// The fixed bytes and the seek chunk of a track that can be written. Returns the place after them.
fn write_front(head: &[u8], entries: &[u32], letters: &[u8], out: &mut [u8], at: usize) -> usize
    requires head_len { length head.now ≡ 7 }
    requires entries_value { is_fine (entries_given (head.now ! 2 ≡? 1) letters.now entries.now) ≡ true }
    requires letters_in_bounds { at + (6 + length (seek_of head.now entries.now letters.now)) ≤ length out.old }
    requires letters_len_bound { length (seek_of head.now entries.now letters.now) ≤ 65536 }
    ensures value { result ≡ at + (6 + length (seek_of head.now entries.now letters.now)) }
    ensures out_after { out.new ≡ sets out.old at (part head.now 1 6 ++ seek_of head.now entries.now letters.now) }
{
    let list = copy_part(head, 1, 6, out, at);
    entries::write_seek(head[2] == 1, letters, entries, out, list)
}

// All of a track that can be written but its header. Returns the place after it.
fn write_inside(
    head: &[u8],
    entries: &[u32],
    items: &[u32],
    letters: &[u8],
    source: &[u8],
    out: &mut [u8],
    at: usize,
) -> usize
    requires head_len { length head.now ≡ 7 }
    requires source_value { is_fine (track_given (given_of head.now entries.now items.now letters.now source.now)) ≡ true }
    requires source_in_bounds { at + length (inside_of head.now entries.now items.now letters.now source.now) ≤ length out.old }
    requires source_len_bound { length (inside_of head.now entries.now items.now letters.now source.now) ≤ 65536 }
    ensures value { result ≡ at + length (inside_of head.now entries.now items.now letters.now source.now) }
    ensures out_after { out.new ≡ sets out.old at (inside_of head.now entries.now items.now letters.now source.now) }
{
    let sequence = write_front(head, entries, letters, out, at);
    write_sequence(items, source, out, sequence)
}

// A track that can be written, at a place with room for it. Returns the place after it.
fn write_track(
    head: &[u8],
    entries: &[u32],
    items: &[u32],
    letters: &[u8],
    source: &[u8],
    out: &mut [u8],
    at: usize,
) -> usize
    requires head_len { length head.now ≡ 7 }
    requires source_value { is_fine (track_given (given_of head.now entries.now items.now letters.now source.now)) ≡ true }
    requires source_in_bounds { at + length (track_given_bytes (track_given (given_of head.now entries.now items.now letters.now source.now))) ≤ length out.old }
    requires source_len_bound { length (track_given_bytes (track_given (given_of head.now entries.now items.now letters.now source.now))) ≤ 65536 }
    ensures value { result ≡ at + length (track_given_bytes (track_given (given_of head.now entries.now items.now letters.now source.now))) }
    ensures out_after { out.new ≡ sets out.old at (track_given_bytes (track_given (given_of head.now entries.now items.now letters.now source.now))) }
{
    let end = write_inside(head, entries, items, letters, source, out, at + 8);
    close_chunk(out, at, track_id(head[0]), end);
    end
}

pub fn write_at(
    numbers: &[u32],
    p: usize,
    bytes: &[u8],
    q: usize,
    parts: Stretches,
    out: &mut [u8],
    at: usize,
) -> usize
    requires apart { Apart numbers.now bytes.now p q parts }
    requires q_value { is_fine (track_given (given_at numbers.now bytes.now p q)) ≡ true }
    requires q_in_bounds { at + length (track_given_bytes (track_given (given_at numbers.now bytes.now p q))) ≤ length out.old }
    requires q_len_bound { length (track_given_bytes (track_given (given_at numbers.now bytes.now p q))) ≤ 65536 }
    ensures value { result ≡ at + length (track_given_bytes (track_given (given_at numbers.now bytes.now p q))) }
    ensures out_after { out.new ≡ sets out.old at (track_given_bytes (track_given (given_at numbers.now bytes.now p q))) }
{
    let from = p + 4;
    let items = parts.items;
    let numbered = parts.numbers;
    let behind = q + 7;
    let source = parts.source;
    let end = parts.bytes;
    write_track(
        &bytes[q..behind],
        &numbers[from..items],
        &numbers[items..numbered],
        &bytes[behind..source],
        &bytes[source..end],
        out,
        at,
    )
}
