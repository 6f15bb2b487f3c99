// `p`: what a play answers, its rows, and whether it kept the rest of the tables.
use super::cases::Case;
use super::kept::{blank, is_kept, put_kept, put_refused};
use model::PlayAnswer;
use std::fmt;
use std::fmt::Write;
use text::Page;

pub fn put_message(page: &mut Page, step: u64, word: u32) {
    page.put_decimal(step);
    page.put_byte(b' ');
    page.put_hex(word as u64, 8);
    page.put_byte(b'\n');
}

fn put_messages(page: &mut Page, steps: &[u64], words: &[u32], rows: usize) {
    for (step, word) in steps.iter().zip(words).take(rows) {
        put_message(page, *step, *word);
    }
}

fn put_played(page: &mut Page, steps: &[u64], words: &[u32], answer: PlayAnswer) -> fmt::Result {
    let PlayAnswer { count, end } = answer;
    writeln!(page, "rows {count} end {end}")?;
    put_messages(page, steps, words, count);
    put_kept(page, is_kept(steps, count) && is_kept(words, count))
}

pub fn answer_play(
    page: &mut Page,
    case: Case,
    buffer: &[u8],
    steps: &mut [u64],
    words: &mut [u32],
) -> fmt::Result {
    blank(steps);
    blank(words);
    match playing::play(buffer, case.stated, case.row, steps, words) {
        Ok(answer) => put_played(page, steps, words, answer),
        Err(why) => put_refused(page, why, is_kept(steps, 0) && is_kept(words, 0)),
    }
}
