// WRITE: a whole file from two lent tables, of numbers and of bytes (model/specs/Tables). All is checked and counted before the first store, so a refusal leaves the
// lent memory as it was.
#![tactic(auto)]

mod all;
mod operation;
mod tables;
mod track;

pub use operation::write_file;
