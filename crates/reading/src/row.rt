// Rows in a lent table, four numbers each: one row, the rows of a list's chunks, those of a chunk of the top level, those of a file.
ghost use Rattle.std.specs.Prelude.{◌≡◌, true, ◌∷◌, map, ◌+◌, ◌-◌, ◌*◌, ◌≤◌, length};
ghost use Rattle.std.proofs.lemmas.List.Edits.{sets};
ghost use Rattle.model.specs.Words.{each};
ghost use Rattle.model.specs.Item.{is_fine, found};
ghost use Rattle.model.specs.File.{top_of, contents_of, row_in, rows_from, numbers_of};
ghost use Rattle.chunks.specs.Kept.{chunks_in};
ghost use Rattle.reading.specs.Stages.{placed, row_numbers, parts_by, file_rows};

use super::top::voice_of;

// Writes a row's four numbers.
fn put_row(rows: &mut [u32], at: usize, id: u32, place: u32, size: u32, container: u32)
    requires { at + 4 ≤ length rows.old }
    ensures { rows.new ≡ sets rows.old at (row_numbers id place size container) }
{
    rows[at] = id;
    rows[at + 1] = place;
    rows[at + 2] = size;
    rows[at + 3] = container;
}

// Writes the rows of a list's chunks, from row k on, all in one container. Returns the row number after them.
fn fill_parts(
    s: &[u8],
    start: usize,
    end: usize,
    container: u32,
    rows: &mut [u32],
    k: usize,
) -> usize
    requires start_le_end { (start ≤ end) × (end ≤ length s.now) × (end ≤ 65536) }
    requires end_value { is_fine (chunks_in s.now start end) ≡ true }
    requires end_in_bounds { 4 * (k + length (found (chunks_in s.now start end))) ≤ length rows.old }
    ensures value { result ≡ k + length (found (chunks_in s.now start end)) }
    ensures rows_after { rows.new ≡ sets rows.old (4 * k) (numbers_of (map (row_in container) (found (chunks_in s.now start end)))) }
{
    let mut row = k;
    let mut at = start;
    while at < end {
        let Some(chunk) = chunks::read_chunk(s, end, at) else {
            return row;
        };
        put_row(
            rows,
            4 * row,
            chunk.id,
            at as u32,
            chunk.size as u32,
            container,
        );
        row += 1;
        at = chunk.next;
    }
    row
}

// Writes the rows of the sub-chunks of a chunk of the top level that passed its check and has row k. Returns the row number after them.
fn fill_contents(s: &[u8], place: usize, size: usize, rows: &mut [u32], k: usize) -> usize
    requires size_in_bounds { (place + 8 + size ≤ length s.now) × (length s.now ≤ 65536) × (k ≤ 65536) }
    requires size_value { is_fine (top_of s.now (placed s.now place size)) ≡ true }
    requires size_in_bounds_2 { 4 * (k + 1 + length (parts_by (top_of s.now (placed s.now place size)))) ≤ length rows.old }
    ensures value { result ≡ k + 1 + length (parts_by (top_of s.now (placed s.now place size))) }
    ensures rows_after { rows.new ≡ sets rows.old (4 * (k + 1)) (numbers_of (map (row_in k) (parts_by (top_of s.now (placed s.now place size))))) }
{
    let Ok(Some(_)) = voice_of(s, place, size) else {
        return k + 1;
    };
    fill_parts(s, place + 8 + 6, place + 8 + size, k as u32, rows, k + 1)
}

// Writes the rows of a chunk of the top level that passed its check, from row k on. Returns the row number after them.
fn fill_top(s: &[u8], place: usize, size: usize, rows: &mut [u32], k: usize) -> usize
    requires size_in_bounds { (place + 8 + size ≤ length s.now) × (length s.now ≤ 65536) × (k ≤ 65536) }
    requires size_value { is_fine (top_of s.now (placed s.now place size)) ≡ true }
    requires size_in_bounds_2 { 4 * (k + 1 + length (parts_by (top_of s.now (placed s.now place size)))) ≤ length rows.old }
    ensures value { result ≡ k + 1 + length (parts_by (top_of s.now (placed s.now place size))) }
    ensures rows_after { rows.new ≡ sets rows.old (4 * k) (numbers_of (row_in 0 (placed s.now place size) ∷ map (row_in k) (parts_by (top_of s.now (placed s.now place size))))) }
{
    put_row(
        rows,
        4 * k,
        numbers::number_at::<4>(s, place),
        place as u32,
        size as u32,
        0,
    );
    fill_contents(s, place, size, rows, k)
}

// Writes the rows of the top level, of which all chunks passed their check, behind the file's own row.
fn fill_tops(s: &[u8], end: usize, rows: &mut [u32])
    requires le_end { (8 ≤ end) × (end ≤ length s.now) × (length s.now ≤ 65536) }
    requires end_value { is_fine (chunks_in s.now 8 end) ≡ true }
    requires end_value_2 { is_fine (each (top_of s.now) (found (chunks_in s.now 8 end))) ≡ true }
    requires end_in_bounds { 4 * (1 + length (rows_from 1 (found (each (top_of s.now) (found (chunks_in s.now 8 end)))))) ≤ length rows.old }
    ensures { rows.new ≡ sets rows.old 4 (numbers_of (rows_from 1 (found (each (top_of s.now) (found (chunks_in s.now 8 end)))))) }
{
    let mut row: usize = 1;
    let mut at: usize = 8;
    while at < end {
        let Some(chunk) = chunks::read_chunk(s, end, at) else {
            return;
        };
        row = fill_top(s, at, chunk.size, rows, row);
        at = chunk.next;
    }
}

// Writes the rows of a file that passed its check.
pub fn fill_rows(s: &[u8], rows: &mut [u32])
    requires s_len_bound { length s.now ≤ 65536 }
    requires s_value { is_fine (contents_of s.now) ≡ true }
    requires s_in_bounds { 4 * length (file_rows (contents_of s.now)) ≤ length rows.old }
    ensures { rows.new ≡ sets rows.old 0 (numbers_of (file_rows (contents_of s.now))) }
{
    put_row(
        rows,
        0,
        numbers::number_at::<4>(s, 0),
        0,
        numbers::number_at::<4>(s, 4),
        0,
    );
    fill_tops(s, s.len() - 2, rows);
}
