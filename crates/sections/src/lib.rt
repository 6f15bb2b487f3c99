// The sections of a track, played: the word of a message, a section as a stretch of a body, and the rows of that stretch in two lent
// tables.
#![tactic(auto)]

mod again;
mod rest;
mod rows;
mod span;
mod take;
mod walk;
mod word;

pub use again::write_section;
pub use rest::write_from;
pub use rows::write_span;
pub use span::{span_between, span_from};
pub use take::take_item;
pub use word::{is_message, word_of};

// Where the rows of a section stand, and what had been played before them.
#[derive(Clone, Copy)]
pub struct Standing {
    pub row: usize,
    pub before: u64,
}

// Where rows end: the index after the last, and the time that is past where the walk ended.
#[derive(Clone, Copy)]
pub struct Written {
    pub row: usize,
    pub time: u64,
}

// An item as plain numbers: the place after it, its duration, its word, 0 where it is no message, and whether it is an end mark.
#[derive(Clone, Copy)]
pub struct Taken {
    pub next: usize,
    pub duration: u32,
    pub word: u32,
    pub mark: bool,
}
