// The seek chunk of given entries in lent memory.
ghost use Rattle.std.specs.Prelude.{◌≡◌, true, [], ◌∷◌, ◌++◌, ◌+◌, ◌≤◌, length};
ghost use Rattle.std.proofs.lemmas.List.Edits.{sets};
ghost use Rattle.model.specs.Item.{is_fine, found};
ghost use Rattle.model.specs.Track.{point_width};
ghost use Rattle.model.specs.ChunkBytes.{number_bytes};
ghost use Rattle.model.specs.SeekBytes.{entries_given};
ghost use Rattle.model.specs.Arrangement.{seek_chunk};
ghost use Rattle.entries.specs.Rows.{tag_of, data_of, row_bytes, rows_bytes, rows_in, entries_in};

use super::bytes::{write_header, write_number, write_pair, write_point};
use super::row::{Row, row_at};
use writing::copy_part;

// The two tag bytes as a number: "st", "sp", "P" and a letter, "SL".
#[tactic(auto, using(model::proofs::Tests::tests), unfolding(crate::specs::Rows::tag_of))]
fn tag_of(row: Row) -> u32
    ensures { result ≡ tag_of row }
{
    if row.kind == 0 {
        return 0x7374;
    }
    if row.kind == 1 {
        return 0x7370;
    }
    if row.kind == 2 {
        return 0x5000 + row.letter % 256;
    }
    0x534C
}

// A comma, the tag, a colon.
#[tactic(auto, using(crate::proofs::RowStores::tag_stores))]
fn write_tag(row: Row, out: &mut [u8], at: usize) -> usize
    requires { at + 4 ≤ length out.old }
    ensures value { result ≡ at + 4 }
    ensures out_after { out.new ≡ sets out.old at (0x2C ∷ number_bytes 2 (tag_of row) ++ (0x3A ∷ [])) }
{
    out[at] = 0x2C;
    let next = write_number::<2>(out, at + 1, tag_of(row));
    out[next] = 0x3A;
    next + 1
}

// Points, addresses or letters.
fn write_data(phrases: bool, letters: &[u8], row: Row, out: &mut [u8], at: usize) -> usize
    requires { at + length (data_of phrases letters.now row) ≤ length out.old }
    ensures value { result ≡ at + length (data_of phrases letters.now row) }
    ensures out_after { out.new ≡ sets out.old at (data_of phrases letters.now row) }
{
    if row.kind == 2 {
        return write_pair(out, at, row.from, row.to);
    }
    if row.kind == 3 {
        return copy_part(letters, 0, letters.len(), out, at);
    }
    write_point(phrases, row.from, out, at)
}

fn write_row(phrases: bool, letters: &[u8], row: Row, out: &mut [u8], at: usize) -> usize
    requires { at + length (row_bytes phrases letters.now row) ≤ length out.old }
    ensures value { result ≡ at + length (row_bytes phrases letters.now row) }
    ensures out_after { out.new ≡ sets out.old at (row_bytes phrases letters.now row) }
{
    let next = write_tag(row, out, at);
    write_data(phrases, letters, row, out, next)
}

// All entries, each with a comma in front.
fn write_rows(phrases: bool, letters: &[u8], entries: &[u32], out: &mut [u8], at: usize) -> usize
    requires { at + length (rows_bytes phrases letters.now (rows_in entries.now)) ≤ length out.old }
    ensures value { result ≡ at + length (rows_bytes phrases letters.now (rows_in entries.now)) }
    ensures out_after { out.new ≡ sets out.old at (rows_bytes phrases letters.now (rows_in entries.now)) }
{
    let count = entries.len() / 4;
    let mut next = at;
    for i in 0..count {
        next = write_row(phrases, letters, row_at(entries, i), out, next);
    }
    next
}

// Nothing where there are no entries. The header comes last, over the first comma.
pub fn write_seek(
    phrases: bool,
    letters: &[u8],
    entries: &[u32],
    out: &mut [u8],
    at: usize,
) -> usize
    requires entries_value { is_fine (entries_given phrases letters.now entries.now) ≡ true }
    requires entries_in_bounds { at + length (seek_chunk (point_width phrases) (entries_in (found (entries_given phrases letters.now entries.now)))) ≤ length out.old }
    requires entries_len_bound { length (seek_chunk (point_width phrases) (entries_in (found (entries_given phrases letters.now entries.now)))) ≤ 65536 }
    ensures value { result ≡ at + length (seek_chunk (point_width phrases) (entries_in (found (entries_given phrases letters.now entries.now)))) }
    ensures out_after { out.new ≡ sets out.old at (seek_chunk (point_width phrases) (entries_in (found (entries_given phrases letters.now entries.now)))) }
{
    if entries.len() / 4 == 0 {
        return at;
    }
    let end = write_rows(phrases, letters, entries, out, at + 7);
    write_header(out, at, 0x4D737049, end - at - 8);
    end
}
