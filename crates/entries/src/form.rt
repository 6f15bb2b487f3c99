// The form of given entries: each is of a known kind, its letter is in the set, its point fits, and they stand in order with no tag twice (refusal 12).
ghost use Rattle.std.specs.Prelude.{◌≡◌, ◌<◌, length};
ghost use Rattle.model.specs.Words.{◌≤?◌, ◌≡?◌};
ghost use Rattle.model.specs.Item.{is_fine};
ghost use Rattle.model.specs.Seek.{is_letter, letters_in_front};
ghost use Rattle.model.specs.SeekBytes.{largest_point, entries_given};
ghost use Rattle.entries.specs.Rows.{row_given, slot_of};

use super::row::{Row, row_at};
use seek::{is_letter, letters_in_front};

fn are_letters(letters: &[u8]) -> bool
    ensures { result ≡ (letters_in_front letters.now ≡? length letters.now) }
{
    letters_in_front(letters, 0) == letters.len()
}

#[tactic(auto, using(crate::proofs::Cases::letter_large))]
fn is_phrase_letter(letter: u32) -> bool
    ensures { result ≡ is_letter letter }
{
    if 0xFF < letter {
        return false;
    }
    is_letter(letter as u8)
}

fn point_fits(phrases: bool, value: u32) -> bool
    ensures { result ≡ (value ≤? largest_point phrases) }
{
    if phrases {
        return value <= 0xFF;
    }
    true
}

// Whether a row is an entry.
#[tactic(auto, using(crate::proofs::RowIs::row_fits))]
fn row_fits(phrases: bool, letters: &[u8], row: Row) -> bool
    ensures { result ≡ is_fine (row_given phrases letters.now row) }
{
    if row.kind == 0 {
        return point_fits(phrases, row.from);
    }
    if row.kind == 1 {
        return point_fits(phrases, row.from);
    }
    if row.kind == 2 {
        return is_phrase_letter(row.letter);
    }
    if row.kind == 3 {
        return are_letters(letters);
    }
    false
}

// A number of its own for each tag: a phrase's is its letter, which is none of the others' numbers.
#[tactic(auto, using(model::proofs::Tests::tests), unfolding(crate::specs::Rows::slot_of))]
fn slot_of(row: Row) -> usize
    ensures { (result ≡ slot_of row) × (result < 256) }
{
    if row.kind == 2 {
        return (row.letter % 256) as usize;
    }
    if row.kind == 3 {
        return 2;
    }
    (row.kind % 2) as usize
}

pub fn has_form(phrases: bool, letters: &[u8], entries: &[u32]) -> bool
    ensures { result ≡ is_fine (entries_given phrases letters.now entries.now) }
{
    let count = entries.len() / 4;
    let mut seen = [false; 256];
    let mut highest: u32 = 0;
    for i in 0..count {
        let row = row_at(entries, i);
        if !row_fits(phrases, letters, row) {
            return false;
        }
        let slot = slot_of(row);
        if seen[slot] {
            return false;
        }
        let kind = row.kind;
        if kind < highest {
            return false;
        }
        seen[slot] = true;
        highest = kind;
    }
    true
}
