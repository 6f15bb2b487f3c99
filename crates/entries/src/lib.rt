// Seek entries as they are given to be written, four numbers each and the letters of an order list beside them: their form (12), the rules that they keep (13, 14),
// and their chunk in lent memory.
#![tactic(auto)]

mod address;
mod bytes;
mod chunk;
mod form;
mod letters;
mod points;
mod row;
mod rows;
mod size;

pub use address::{Cursor, advance};
pub use bytes::{write_header, write_number};
pub use chunk::write_seek;
pub use rows::{Told, judge_entries};
pub use size::seek_size;
