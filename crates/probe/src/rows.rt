// `r`: what a read answers, its rows, and whether it kept the rest of the table.
use super::cases::Case;
use super::kept::{blank, is_kept, is_whole, put_kept, put_refused};
use model::ReadAnswer;
use std::fmt;
use std::fmt::Write;
use text::Page;

fn put_rows(page: &mut Page, table: &[u32], rows: usize) {
    for row in table.chunks_exact(4).take(rows) {
        page.put_hex(row[0] as u64, 8);
        page.put_byte(b' ');
        page.put_decimal(row[1] as u64);
        page.put_byte(b' ');
        page.put_decimal(row[2] as u64);
        page.put_byte(b' ');
        page.put_decimal(row[3] as u64);
        page.put_byte(b'\n');
    }
}

fn put_accepted(page: &mut Page, table: &[u32], answer: ReadAnswer) -> fmt::Result {
    let ReadAnswer {
        count,
        code,
        matches,
    } = answer;
    let verdict = if matches { "yes" } else { "no" };
    writeln!(page, "rows {count} code {code:04x} verdict {verdict}")?;
    put_rows(page, table, count);
    put_kept(page, is_whole(table, 4, count))
}

pub fn answer_read(page: &mut Page, case: Case, buffer: &[u8], table: &mut [u32]) -> fmt::Result {
    blank(table);
    match reading::read(buffer, case.stated, table) {
        Ok(answer) => put_accepted(page, table, answer),
        Err(why) => put_refused(page, why, is_kept(table, 0)),
    }
}
