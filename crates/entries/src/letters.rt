// The letters of an order list: each has a phrase (refusal 14).
ghost use Rattle.std.specs.Prelude.{◌≡◌, false, ◌<◌, get_or};
ghost use Rattle.entries.specs.Rows.{rows_in};
ghost use Rattle.entries.specs.Rules.{Named, marked, all_named, letters_fault};

use super::row::{Row, row_at};

// A phrase's letter is flagged.
#[tactic(auto, using(model::proofs::Tests::tests), unfolding(crate::specs::Rules::marked))]
fn mark(flags: &mut [bool; 256], row: Row)
    ensures { flags.new ≡ marked flags.old row }
{
    if row.kind == 2 {
        flags[(row.letter % 256) as usize] = true;
    }
}

// For each byte whether it is a phrase's letter.
fn name_letters(entries: &[u32]) -> [bool; 256]
    ensures { Named (rows_in entries.now) result }
{
    let count = entries.len() / 4;
    let mut flags = [false; 256];
    for i in 0..count {
        mark(&mut flags, row_at(entries, i));
    }
    flags
}

fn is_flagged(flags: &[bool; 256], letter: u8) -> bool
    ensures { (result ≡ get_or flags.now letter false) × (letter < 256) }
{
    flags[letter as usize]
}

// Whether each letter has a phrase.
fn letters_named(letters: &[u8], entries: &[u32]) -> bool
    ensures { result ≡ all_named (rows_in entries.now) letters.now }
{
    let flags = name_letters(entries);
    for &letter in letters {
        if !is_flagged(&flags, letter) {
            return false;
        }
    }
    true
}

// 14, or 0 where each letter has a phrase or there is no list.
pub fn letters_fault(ordered: bool, letters: &[u8], entries: &[u32]) -> u32
    ensures { result ≡ letters_fault ordered (rows_in entries.now) letters.now }
{
    if ordered {
        if letters_named(letters, entries) {
            return 0;
        }
        return 14;
    }
    0
}
