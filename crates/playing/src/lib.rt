// Plays a track: the bodies of the track that a row names (16), its section or its order list (17), and its messages at their steps in
// two lent tables (15).
#![tactic(auto)]

mod bodies;
mod letters;
mod operation;
mod phrases;
mod stream;

pub use bodies::{bytes_in, open_track};
pub use letters::{find_spans, letters_heard, passage_of_letter};
pub use operation::play;
pub use phrases::letters_played;
pub use stream::{points_of, span_of_stream};
