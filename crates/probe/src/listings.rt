// `l`: the listing of a buffer, and whether it kept the rest of its room.
use super::kept::{Lent, is_kept, put_kept};
use std::fmt;
use std::fmt::Write;
use text::Page;

fn put_listed(page: &mut Page, room: &[u8], length: usize) -> fmt::Result {
    if let Some(listing) = room.get(..length) {
        page.put(listing);
    }
    put_kept(page, is_kept(room, length))
}

pub fn answer_list(page: &mut Page, buffer: &[u8]) -> fmt::Result {
    let mut room = [u8::BLANK; 500000];
    match lines::list(buffer, &mut room) {
        Some(length) => put_listed(page, &room, length),
        None => writeln!(page, "no room"),
    }
}
