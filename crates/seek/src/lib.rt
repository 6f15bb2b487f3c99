// The seek body of a track: its entries read one by one, their form, the points and phrases they name, and the rules that those keep.
// Each function answers what the definition of its name in model/specs says.
#![tactic(auto)]

mod entry;
mod form;
mod known;
mod next;
mod order;
mod points;
mod said;

pub use entry::{is_letter, letters_in_front, read_entry};
pub use form::check_form;
pub use known::read_known;
pub use points::check_points;
pub use said::{find_phrase, read_points};
