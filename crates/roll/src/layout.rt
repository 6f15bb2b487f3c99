// Where things stand in the picture, in pixels or in tenths of a pixel, and how such numbers, times and notes are written.
ghost use Rattle.std.specs.Prelude.{◌<◌};

use std::fmt;
use std::fmt::Write;
use text::Page;

// What is played: the row of a track, how many messages it plays, and its end.
#[derive(Clone, Copy)]
pub struct Played {
    pub row: usize,
    pub count: usize,
    pub end: u64,
}

// Milliseconds of a step of time, and of one of gate time.
#[derive(Clone, Copy)]
pub struct Bases {
    pub step: u64,
    pub gate: u64,
}

// Milliseconds of so many steps, no more than the longest picture.
pub fn milliseconds(steps: u64, base: u64) -> u64 {
    if 20_000_000_000_000 < steps {
        return 1_000_000_000_000_000;
    }
    steps.saturating_mul(base)
}

// Where the rows begin, in pixels.
pub const TOP: u64 = 90;

// What the picture shows: the pitches from the lowest row on and how high a row is; how long it lasts in milliseconds; where the lanes below
// the rows begin and end, and the picture's height. Heights are in pixels.
#[derive(Clone, Copy)]
pub struct Layout {
    pub lowest: u64,
    pub rows: u64,
    pub row_height: u64,
    pub total: u64,
    pub waves: u64,
    pub others: u64,
    pub bottom: u64,
    pub height: u64,
}

impl Layout {
    // How far from the left a time stands, in tenths of a pixel.
    pub fn across(self, time: u64) -> u64 {
        let total = self.total;
        if total == 0 {
            return 700;
        }
        let part = time.min(total).saturating_mul(11000) / total;
        part.saturating_add(700)
    }

    // The upper edge of a row, in pixels.
    pub fn edge(self, row: u64) -> u64 {
        match row.checked_sub(self.lowest) {
            Some(up) if up < self.rows => {
                let above = self.rows - up - 1;
                TOP.saturating_add(above.saturating_mul(self.row_height))
            }
            _ => TOP,
        }
    }
}

// A number of tenths, as a decimal.
#[derive(Clone, Copy)]
pub struct Tenths(pub u64);

impl fmt::Display for Tenths {
    fn fmt<W: fmt::Write>(&self, f: &mut fmt::Formatter<W>) -> fmt::Result {
        write!(f, "{}.{}", self.0 / 10, self.0 % 10)
    }
}

// Milliseconds as seconds, with three decimals.
#[derive(Clone, Copy)]
pub struct Seconds(pub u64);

impl fmt::Display for Seconds {
    fn fmt<W: fmt::Write>(&self, f: &mut fmt::Formatter<W>) -> fmt::Result {
        write!(f, "{}.{:03}", self.0 / 1000, self.0 % 1000)
    }
}

// How many there are of what a word names.
#[derive(Clone, Copy)]
pub struct Many<'a>(pub u64, pub &'a str);

impl<'a> fmt::Display for Many<'a> {
    fn fmt<W: fmt::Write>(&self, f: &mut fmt::Formatter<W>) -> fmt::Result {
        let count = self.0;
        let word = self.1;
        if count == 1 {
            return write!(f, "1 {word}");
        }
        write!(f, "{count} {word}s")
    }
}

// How many semitones above a C a row's note is.
pub fn above_c(row: u64) -> u64
    ensures { result < 12 }
{
    row.saturating_add(1) % 12
}

pub fn is_natural_c(row: u64) -> bool {
    above_c(row) == 0
}

// Whether a row is one of the black keys.
pub fn is_black(row: u64) -> bool {
    matches!(above_c(row), 1 | 3 | 6 | 8 | 10)
}

// The name of a row's note: C4 is the C below the A of 440 Hz, which is row 80.
#[derive(Clone, Copy)]
pub struct NoteName(pub u64);

impl fmt::Display for NoteName {
    fn fmt<W: fmt::Write>(&self, f: &mut fmt::Formatter<W>) -> fmt::Result {
        let names = [
            "C", "C#", "D", "D#", "E", "F", "F#", "G", "G#", "A", "A#", "B",
        ];
        let name = names[above_c(self.0) as usize];
        let octave = (self.0.saturating_add(1) / 12) as i64 - 2;
        write!(f, "{name}{octave}")
    }
}

pub fn colour(channel: u8) -> &'static str {
    match channel {
        0 => "#1f77b4",
        1 => "#d9662b",
        2 => "#2f9e44",
        _ => "#9c36b5",
    }
}

// An upright line of a style, which says where it begins, down to where the lanes end.
pub fn draw_upright(page: &mut Page, layout: Layout, x: u64, style: &str) -> fmt::Result {
    let x = Tenths(x);
    writeln!(
        page,
        "<line {style} x1=\"{x}\" x2=\"{x}\" y2=\"{}.0\"/>",
        layout.bottom
    )
}
