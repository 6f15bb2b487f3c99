// `f`: what flattening answers, the bytes of the plain form, and whether it kept the rest of the room.
use super::cases::Case;
use super::kept::blank;
use super::rooms::put_room;
use std::fmt;
use text::Page;

pub fn answer_flatten(page: &mut Page, case: Case, buffer: &[u8], room: &mut [u8]) -> fmt::Result {
    blank(room);
    let filled = flattening::flatten(buffer, case.stated, case.row, room);
    put_room(page, room, filled)
}
