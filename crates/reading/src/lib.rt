// Reads a file into chunk rows: the frame (2 to 7), each track (8 to 14), the rows, and the operation itself (1, 15).
#![tactic(auto)]

mod file;
mod find;
mod frame;
mod operation;
mod row;
mod top;
mod tops;

pub use file::check_file;
pub use find::find_track;
pub use frame::check_frame;
pub use operation::read;
pub use top::voice_of;
pub use tops::check_tops;
