// Gives a track in the form in which it is written: the items of the track that a row names, two numbers each, and its seek entries, four
// numbers each, with the letters of its order list, in lent memory (15).
#![tactic(auto)]

mod named;
mod operation;
mod seek_entries;
mod sequence;

pub use operation::{entries_of, items_of};
