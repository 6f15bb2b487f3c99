// One track, checked on its own stretch of the file: 8; its list (4, 9, 6); what is missing (9); 10; 11; 12, 13, 14.
#![tactic(auto)]

mod body;
mod fixed;
mod part;
mod track;

pub use fixed::fixed_fits;
pub use part::{body_of, find_part};
pub use track::check_track;
