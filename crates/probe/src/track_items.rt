// `m`: the items of a track, two numbers each, and whether the rest of the table was kept.
use super::cases::Case;
use super::kept::{blank, is_kept, is_whole, put_kept, put_refused};
use super::messages::put_message;
use std::fmt;
use std::fmt::Write;
use text::Page;

fn put_items(page: &mut Page, table: &[u32], count: usize) -> fmt::Result {
    writeln!(page, "rows {count}")?;
    for item in table.chunks_exact(2).take(count) {
        put_message(page, item[0] as u64, item[1]);
    }
    put_kept(page, is_whole(table, 2, count))
}

pub fn answer_items(page: &mut Page, case: Case, buffer: &[u8], table: &mut [u32]) -> fmt::Result {
    blank(table);
    match giving::items_of(buffer, case.stated, case.row, table) {
        Ok(count) => put_items(page, table, count),
        Err(why) => put_refused(page, why, is_kept(table, 0)),
    }
}
