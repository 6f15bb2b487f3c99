// The operations for C: a file for each, with the struct that C gets by value and the exported function. Each struct begins with the
// refusal, 0 where the call was accepted, and its place. The check code, which refuses nothing, is a number. include/smaf.h says the same
// to C.
#![tactic(auto)]

mod check_code;
mod flatten;
mod note_pitch;
mod play;
mod read;
mod track_entries;
mod track_items;
mod write;

pub use check_code::smaf_check_code;
pub use flatten::smaf_flatten;
pub use note_pitch::smaf_pitch;
pub use play::smaf_play;
pub use read::smaf_read;
pub use track_entries::smaf_entries;
pub use track_items::smaf_items;
pub use write::smaf_write;
