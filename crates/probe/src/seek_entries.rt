// `s`: the seek entries of a track, four numbers each, the letters of its order list, and whether the rest of the table and of the room for
// letters was kept.
use super::cases::Case;
use super::kept::{blank, is_kept, is_whole, put_kept, put_refused};
use super::rooms::put_line_of_bytes;
use model::EntriesAnswer;
use std::fmt;
use std::fmt::Write;
use text::Page;

const ORDER_LIST: u32 = 3;

// A line for each entry, and for an order list one more, of its letters.
fn put_entries(page: &mut Page, table: &[u32], letters: &[u8], count: usize) {
    for entry in table.chunks_exact(4).take(count) {
        page.put_decimal(entry[0] as u64);
        page.put_byte(b' ');
        page.put_hex(entry[1] as u64, 2);
        page.put_byte(b' ');
        page.put_decimal(entry[2] as u64);
        page.put_byte(b' ');
        page.put_decimal(entry[3] as u64);
        page.put_byte(b'\n');
        if entry[0] == ORDER_LIST {
            put_line_of_bytes(page, letters, entry[2] as usize);
        }
    }
}

fn put_sought(page: &mut Page, table: &[u32], room: &[u8], answer: EntriesAnswer) -> fmt::Result {
    let EntriesAnswer { count, letters } = answer;
    writeln!(page, "rows {count}")?;
    put_entries(page, table, room, count);
    put_kept(page, is_whole(table, 4, count) && is_kept(room, letters))
}

pub fn answer_entries(
    page: &mut Page,
    case: Case,
    buffer: &[u8],
    table: &mut [u32],
    room: &mut [u8],
) -> fmt::Result {
    blank(table);
    blank(room);
    match giving::entries_of(buffer, case.stated, case.row, table, room) {
        Ok(answer) => put_sought(page, table, room, answer),
        Err(why) => put_refused(page, why, is_kept(table, 0) && is_kept(room, 0)),
    }
}
