// The piano roll: reads a file from standard input and writes a picture of its first readable track, as SVG, to standard output. Time goes
// across, pitch up; what it shows is what the proved operations answer. A refused file gives a small picture that says the refusal.
#![tactic(auto)]

mod borders;
mod endings;
mod frame;
mod layout;
mod marks;
mod messages;
mod notes;
mod refusal;

ghost use Rattle.std.specs.Prelude.{◌≡◌, true, ◌≤◌, length};
ghost use Rattle.model.specs.Item.{is_fine};
ghost use Rattle.model.specs.File.{contents_of};
ghost use Rattle.playing.specs.Performing.{Inside};

use borders::draw_borders;
use frame::{draw_frame, layout_of};
use layout::{Bases, Played};
use messages::look_over;
use model::{Bodies, PlayAnswer, Refusal, TimeBase, Voice};
use notes::draw_messages;
use refusal::draw_refusal;
use std::fmt;
use std::fmt::Write;
use text::Page;

const NO_FILE: Refusal = Refusal {
    number: 1,
    place: 0,
};

const NO_TRACK: Refusal = Refusal {
    number: 16,
    place: 0,
};

// Milliseconds of a step, by a time base's code; 1 where there is none, which no accepted track has.
fn milliseconds_of(file: &[u8], at: usize) -> u64 {
    let Some(code) = file.get(at) else {
        return 1;
    };
    match TimeBase::of(*code) {
        Some(base) => base.milliseconds() as u64,
        None => 1,
    }
}

// The time bases of a track: of a score track the third and fourth byte after its header's eight, of a PCM track the fifth and sixth.
fn bases_of(file: &[u8], bodies: Bodies) -> Bases {
    let step = match bodies.voice {
        Voice::Score => bodies.header.saturating_add(10),
        Voice::Pcm => bodies.header.saturating_add(12),
    };
    Bases {
        step: milliseconds_of(file, step),
        gate: milliseconds_of(file, step.saturating_add(1)),
    }
}

fn draw_track(
    page: &mut Page,
    file: &[u8],
    bodies: Bodies,
    played: Played,
    steps: &[u64],
    words: &[u32],
) -> fmt::Result
    requires file_len_bound { length file.now ≤ 65536 }
    requires inside { Inside file.now bodies }
{
    let bases = bases_of(file, bodies);
    let found = look_over(words, played.count);
    let layout = layout_of(played, bases, found);
    draw_frame(page, layout, found, played)?;
    draw_borders(page, layout, bases.step, file, bodies)?;
    draw_messages(page, layout, bases, steps, words, played.count)?;
    writeln!(page, "</svg>")
}

fn draw_opened(
    page: &mut Page,
    file: &[u8],
    row: usize,
    bodies: Bodies,
    steps: &mut [u64],
    words: &mut [u32],
) -> fmt::Result
    requires file_len_bound { length file.now ≤ 65536 }
    requires inside { Inside file.now bodies }
{
    match playing::play(file, file.len(), row, steps, words) {
        Ok(PlayAnswer { count, end }) => draw_track(
            page,
            file,
            bodies,
            Played { row, count, end },
            steps,
            words,
        ),
        Err(why) => draw_refusal(page, why),
    }
}

fn draw_row(
    page: &mut Page,
    file: &[u8],
    row: usize,
    steps: &mut [u64],
    words: &mut [u32],
) -> fmt::Result
    requires file_len_bound { length file.now ≤ 65536 }
    requires file_value { is_fine (contents_of file.now) ≡ true }
{
    match playing::open_track(file, row) {
        Some(bodies) => draw_opened(page, file, row, bodies, steps, words),
        None => draw_refusal(page, NO_TRACK),
    }
}

// The first readable track, the one that the listing lists.
fn draw_first(page: &mut Page, file: &[u8], steps: &mut [u64], words: &mut [u32]) -> fmt::Result
    requires file_len_bound { length file.now ≤ 65536 }
    requires file_value { is_fine (contents_of file.now) ≡ true }
{
    match lines::first_track(file) {
        Some(track) => draw_row(page, file, track.row, steps, words),
        None => draw_refusal(page, NO_TRACK),
    }
}

fn draw(page: &mut Page, file: &[u8], steps: &mut [u64], words: &mut [u32]) -> fmt::Result {
    if 65536 < file.len() {
        return draw_refusal(page, NO_FILE);
    }
    match reading::check_file(file) {
        Ok(_) => draw_first(page, file, steps, words),
        Err(why) => draw_refusal(page, why),
    }
}

fn main() {
    let mut page = Page::new();
    let mut file = [0u8; 65537];
    let mut steps = [0u64; 65536];
    let mut words = [0u32; 65536];
    let size = io::read_full(0, &mut file);
    // a page takes any text
    let _ = draw(&mut page, &file[..size], &mut steps, &mut words);
    page.finish();
}
