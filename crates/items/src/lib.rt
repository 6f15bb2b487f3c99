// The items of a sequence body, read at a place: durations and gate times, events of both voices, items, whole bodies and setup bodies.
// Each reader answers what the definition of its name in model/specs says, for any bytes and any place.
#![tactic(auto)]

mod body;
mod duration;
mod event;
mod item;
mod pass;
mod reach;
mod standard;

pub use body::{read_body, read_setup};
pub use duration::{read_duration, read_gate};
pub use event::{has_kind, is_note, is_shift, is_value, is_wave, read_event};
pub use item::read_item;
pub use reach::is_address_from;
pub use standard::standard_value;
