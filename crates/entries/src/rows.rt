// The rules that all given entries keep (refusals 12, 13 and 14), told while the items are checked.
ghost use Rattle.std.specs.Prelude.{◌≡◌, length};
ghost use Rattle.model.specs.Words.{when◌then◌else◌};
ghost use Rattle.entries.specs.Rows.{rows_in};
ghost use Rattle.entries.specs.Rules.{Says, Tells, started_in, has_list, rows_hold, order_fault};

use super::address::Cursor;
use super::form::has_form;
use super::letters::letters_fault;
use super::points::{Judged, judge_row};
use super::row::row_at;

// The value of the start point, or 0.
#[tactic(auto, using(crate::proofs::Finding::starting))]
fn start_value(entries: &[u32]) -> u32
    ensures { result ≡ started_in (rows_in entries.now) }
{
    let count = entries.len() / 4;
    for i in 0..count {
        let row = row_at(entries, i);
        if row.kind == 0 {
            return row.from;
        }
    }
    0
}

#[tactic(auto, using(crate::proofs::Finding::listing))]
fn has_list(entries: &[u32]) -> bool
    ensures { result ≡ has_list (rows_in entries.now) }
{
    let count = entries.len() / 4;
    for i in 0..count {
        let row = row_at(entries, i);
        if row.kind == 3 {
            return true;
        }
    }
    false
}

fn judge_rows(
    phrases: bool,
    source: &[u8],
    items: &[u32],
    started: u32,
    listed: usize,
    entries: &[u32],
) -> Judged
    ensures { Says source.now items.now result (rows_hold phrases items.now started listed (rows_in entries.now)) }
{
    let count = entries.len() / 4;
    let mut front = Cursor { index: 0, place: 0 };
    for i in 0..count {
        let row = row_at(entries, i);
        let judged = judge_row(phrases, source, items, front, started, listed, row);
        front = judged.front;
        if !judged.holds {
            return Judged {
                holds: false,
                front,
            };
        }
    }
    Judged { holds: true, front }
}

// How many letters the order list has, none where there is no list.
#[tactic(auto, using(model::proofs::Tests::tests))]
fn list_length(ordered: bool, letters: &[u8]) -> usize
    ensures { result ≡ (when ordered then length letters.now else 0) }
{
    if ordered {
        return letters.len();
    }
    0
}

// 14 or 0: the letters of a stream do not count.
fn order_fault(phrases: bool, ordered: bool, letters: &[u8], entries: &[u32]) -> u32
    ensures { result ≡ order_fault phrases ordered (rows_in entries.now) letters.now }
{
    if phrases {
        return letters_fault(ordered, letters, entries);
    }
    0
}

// The number of a refusal, or 0, and how far the front has come.
#[derive(Clone, Copy)]
pub struct Told {
    pub fault: u32,
    pub front: Cursor,
}

pub fn judge_entries(
    phrases: bool,
    letters: &[u8],
    entries: &[u32],
    source: &[u8],
    items: &[u32],
) -> Told
    ensures { Tells phrases letters.now entries.now source.now items.now result }
{
    if !has_form(phrases, letters, entries) {
        return Told {
            fault: 12,
            front: Cursor { index: 0, place: 0 },
        };
    }
    let ordered = has_list(entries);
    let listed = list_length(ordered, letters);
    let judged = judge_rows(
        phrases,
        source,
        items,
        start_value(entries),
        listed,
        entries,
    );
    let front = judged.front;
    if !judged.holds {
        return Told { fault: 13, front };
    }
    Told {
        fault: order_fault(phrases, ordered, letters, entries),
        front,
    }
}
