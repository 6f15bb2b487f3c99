// The rules that one given entry keeps beside given items (refusal 13). Each judgement says how far the front has come.
ghost use Rattle.std.specs.Prelude.{◌≡◌, not};
ghost use Rattle.model.specs.Words.{◌and◌, ◌<?◌, ◌≡?◌};
ghost use Rattle.model.specs.Points.{is_span};
ghost use Rattle.entries.specs.Places.{is_place, Front};
ghost use Rattle.entries.specs.Rules.{Says, row_holds};

use super::address::{Cursor, advance, is_address};
use super::row::Row;

#[derive(Clone, Copy)]
pub struct Judged {
    pub holds: bool,
    pub front: Cursor,
}

// Whether two numbers that are known to be addresses are in order.
#[tactic(auto, using(crate::proofs::Holding::ordering))]
fn is_ordered(known: bool, from: u32, to: u32) -> bool
    ensures { result ≡ (known and not (to <? from)) }
{
    if to < from {
        return false;
    }
    known
}

fn judge_phrase(source: &[u8], items: &[u32], front: Cursor, from: u32, to: u32) -> Judged
    requires { Front source.now items.now front }
    ensures { Says source.now items.now result (is_span (is_place items.now) from to) }
{
    let first = advance(source, items, front, from);
    if !is_address(items, first, from) {
        return Judged {
            holds: false,
            front: first,
        };
    }
    let last = advance(source, items, first, to);
    let known = is_address(items, last, to);
    Judged {
        holds: is_ordered(known, from, to),
        front: last,
    }
}

// A point of a stream.
fn judge_point(source: &[u8], items: &[u32], front: Cursor, value: u32) -> Judged
    requires { Front source.now items.now front }
    ensures { Says source.now items.now result (is_place items.now value) }
{
    let there = advance(source, items, front, value);
    Judged {
        holds: is_address(items, there, value),
        front: there,
    }
}

// Whether a row is a stop point before the start.
#[tactic(auto, using(model::proofs::Tests::tests, model::proofs::Tests::and_off, model::proofs::Tests::and_on))]
fn is_early(row: Row, started: u32) -> bool
    ensures { result ≡ ((row.kind ≡? 1) and (row.from <? started)) }
{
    if row.kind != 1 {
        return false;
    }
    row.from < started
}

// A row beside the value of the start point and so many letters of the order list.
pub fn judge_row(
    phrases: bool,
    source: &[u8],
    items: &[u32],
    front: Cursor,
    started: u32,
    listed: usize,
    row: Row,
) -> Judged
    requires { Front source.now items.now front }
    ensures { Says source.now items.now result (row_holds phrases items.now started listed row) }
{
    if row.kind == 3 {
        return Judged { holds: true, front };
    }
    if row.kind == 2 {
        return judge_phrase(source, items, front, row.from, row.to);
    }
    if is_early(row, started) {
        return Judged {
            holds: false,
            front,
        };
    }
    if phrases {
        return Judged {
            holds: row.from as usize <= listed,
            front,
        };
    }
    judge_point(source, items, front, row.from)
}
