// Lent memory: what it holds before it is lent, whether it was kept, and the last line of an answer, which says so.
use model::Refusal;
use std::fmt;
use std::fmt::Write;
use text::Page;

pub trait Lent: Copy + PartialEq {
    const BLANK: Self;
}

impl Lent for u8 {
    const BLANK: u8 = 0xA5;
}

impl Lent for u32 {
    const BLANK: u32 = 0xA5A5A5A5;
}

impl Lent for u64 {
    const BLANK: u64 = 0xA5A5A5A5A5A5A5A5;
}

pub fn blank<T: Lent>(memory: &mut [T]) {
    for place in memory.iter_mut() {
        *place = T::BLANK;
    }
}

// Whether the memory is as it was past its first so many places. `all` says the same, but where the probe is built without a proof it takes five times as long.
pub fn is_kept<T: Lent>(memory: &[T], filled: usize) -> bool {
    let Some(rest) = memory.get(filled..) else {
        return true;
    };
    for place in rest {
        if *place != T::BLANK {
            return false;
        }
    }
    true
}

// Whether the table has so many rows of a width, and is as it was past them.
pub fn is_whole(table: &[u32], width: usize, rows: usize) -> bool {
    match rows.checked_mul(width) {
        Some(filled) => filled <= table.len() && is_kept(table, filled),
        None => false,
    }
}

pub fn put_kept(page: &mut Page, kept: bool) -> fmt::Result {
    if kept {
        writeln!(page, "-- kept")
    } else {
        writeln!(page, "-- spoilt")
    }
}

pub fn put_refused(page: &mut Page, why: Refusal, kept: bool) -> fmt::Result {
    writeln!(page, "refused {} {}", why.number, why.place)?;
    put_kept(page, kept)
}
