// The probe: takes a row of cases on standard input and writes the answer to each, as text, on standard output, with a line that says
// whether lent memory outside the answer was kept. A case is one byte for the operation, four numbers of four bytes (stated length, row
// number, room, length of the buffer), and the buffer. It answers `r` (read), `p` (play), `f` (flatten), `l` (listing), `t` (pitch), `w` (write a
// file), `b` (write a body), `m` (items of a track) and `s` (its seek entries). A case that is cut, too large or of an unknown operation, or whose
// description is cut, ends the run with the line `bad case`.
#![tactic(auto)]

mod cases;
mod cursor;
mod descriptions;
mod kept;
mod listings;
mod messages;
mod plain_forms;
mod rooms;
mod rows;
mod seek_entries;
mod tables;
mod track_items;
mod written;

use cases::{Case, DESCRIPTION, Operation, ROOM, Stopped, next_case};
use kept::{put_kept, put_refused};
use listings::answer_list;
use messages::answer_play;
use model::Pitch;
use plain_forms::answer_flatten;
use rows::answer_read;
use seek_entries::answer_entries;
use std::fmt;
use std::fmt::Write;
use text::Page;
use track_items::answer_items;
use written::{answer_write, answer_write_body};

// Four numbers for each row of the largest room.
const NUMBERS: usize = 280000;

fn answer_pitch(page: &mut Page, case: Case) -> fmt::Result {
    match pitch::pitch_of((case.stated % 256) as u8, (case.row % 256) as u8) {
        Ok(Pitch { above }) => {
            writeln!(page, "pitch {above}")?;
            put_kept(page, true)
        }
        Err(why) => put_refused(page, why, true),
    }
}

// To an operation a case lends of each table as much as it states.
fn answer(
    page: &mut Page,
    case: Case,
    buffer: &[u8],
    table: &mut [u32; NUMBERS],
    steps: &mut [u64; ROOM],
    bytes: &mut [u8; ROOM],
    given: &mut [u8; DESCRIPTION],
) -> Result<(), Stopped> {
    let room = case.room;
    let bytes = &mut bytes[..room];
    match case.operation {
        Operation::Read => answer_read(page, case, buffer, &mut table[..4 * room])?,
        Operation::Play => {
            answer_play(page, case, buffer, &mut steps[..room], &mut table[..room])?
        }
        Operation::Flatten => answer_flatten(page, case, buffer, bytes)?,
        Operation::List => answer_list(page, buffer)?,
        Operation::Pitch => answer_pitch(page, case)?,
        Operation::WriteFile => answer_write(page, buffer, table, given, bytes)?,
        Operation::WriteBody => answer_write_body(page, buffer, table, given, bytes)?,
        Operation::Items => answer_items(page, case, buffer, &mut table[..2 * room])?,
        Operation::Entries => answer_entries(
            page,
            case,
            buffer,
            &mut table[..4 * room],
            &mut given[..65536],
        )?,
    }
    Ok(())
}

fn run(
    page: &mut Page,
    buffer: &mut [u8; DESCRIPTION],
    table: &mut [u32; NUMBERS],
    steps: &mut [u64; ROOM],
    bytes: &mut [u8; ROOM],
    given: &mut [u8; DESCRIPTION],
) -> Result<(), Stopped> {
    for _ in 0..1_000_000_000u32 {
        let Some(case) = next_case(buffer)? else {
            return Ok(());
        };
        answer(page, case, &buffer[..case.size], table, steps, bytes, given)?;
    }
    Ok(())
}

fn main() {
    let mut page = Page::new();
    let mut buffer = [0u8; DESCRIPTION];
    let mut table = [0u32; NUMBERS];
    let mut steps = [0u64; ROOM];
    let mut bytes = [0u8; ROOM];
    let mut given = [0u8; DESCRIPTION];
    let ran = run(
        &mut page,
        &mut buffer,
        &mut table,
        &mut steps,
        &mut bytes,
        &mut given,
    );
    if let Err(Stopped::BadCase) = ran {
        page.put(b"bad case\n");
    }
    page.finish();
}
