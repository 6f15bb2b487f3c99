// `w`, `b`: what the writer answers, of a file and of a body, the bytes, and whether it kept the rest of the room.
use super::cases::Stopped;
use super::descriptions::{lay_body, lay_file};
use super::kept::blank;
use super::rooms::put_room;
use super::tables::Table;
use text::Page;

pub fn answer_write(
    page: &mut Page,
    buffer: &[u8],
    table: &mut [u32],
    given: &mut [u8],
    room: &mut [u8],
) -> Result<(), Stopped> {
    let mut numbers = Table::new(table);
    let mut bytes = Table::new(given);
    lay_file(buffer, &mut numbers, &mut bytes).ok_or(Stopped::BadCase)?;
    blank(room);
    let filled = arranging::write_file(numbers.filled(), bytes.filled(), room);
    put_room(page, room, filled)?;
    Ok(())
}

pub fn answer_write_body(
    page: &mut Page,
    buffer: &[u8],
    table: &mut [u32],
    given: &mut [u8],
    room: &mut [u8],
) -> Result<(), Stopped> {
    let mut items = Table::new(table);
    let mut source = Table::new(given);
    let voice = lay_body(buffer, &mut items, &mut source).ok_or(Stopped::BadCase)?;
    blank(room);
    let filled = writing::write_items(voice, source.filled(), items.filled(), room);
    put_room(page, room, filled)?;
    Ok(())
}
