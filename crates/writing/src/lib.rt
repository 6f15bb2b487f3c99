// The items of a sequence, written into lent memory. What does not fit the format or the room is refused before the first store, so a
// refusal leaves the memory as it was. Reading gives back what was written, and writing what was read: for one item
// proofs/PutBack.antt, proofs/ReadBack.antt and proofs/WriteBack.antt, for a whole sequence the crate `inverse`.
#![tactic(auto)]

mod duration;
mod event;
mod fits;
mod given;
mod item;
mod limit;
mod list;
mod measure;
mod short;
mod word;

pub use duration::{duration_size, write_duration};
pub use event::{copy_part, event_size, write_event};
pub use fits::event_fits;
pub use given::{given_size, write_end_mark};
pub use item::{item_size, put_item, write_item};
pub use limit::{limited_sum, within_limit};
pub use list::{check_from, check_items, write_items, write_list};
pub use measure::given_length;
pub use short::is_short;
pub use word::event_in;
