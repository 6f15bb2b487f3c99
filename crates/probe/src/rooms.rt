// Lent bytes: how many of them are an answer, as a line of text, and whether the rest was kept.
use super::kept::{is_kept, put_kept, put_refused};
use model::Refusal;
use std::fmt;
use std::fmt::Write;
use text::Page;

pub fn put_line_of_bytes(page: &mut Page, room: &[u8], count: usize) {
    for byte in room.iter().take(count) {
        page.put_hex_byte(*byte);
    }
    page.put_byte(b'\n');
}

pub fn put_room(page: &mut Page, room: &[u8], filled: Result<usize, Refusal>) -> fmt::Result {
    match filled {
        Ok(length) => {
            writeln!(page, "bytes {length}")?;
            put_line_of_bytes(page, room, length);
            put_kept(page, is_kept(room, length))
        }
        Err(why) => put_refused(page, why, is_kept(room, 0)),
    }
}
