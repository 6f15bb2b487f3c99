// FLATTEN: the plain form of a track in lent room. A section's messages are written after their gaps; how many bytes a whole order takes is
// known from a few numbers for each of its sections before one is written.
#![tactic(auto)]

mod again;
mod bodies;
mod gaps;
mod operation;
mod order;
mod section;
mod sizes;

use model::Shape;
pub use operation::flatten;

// How many bytes of a plain form are counted, and the time since the last message.
#[derive(Clone, Copy)]
pub struct Size {
    pub bytes: usize,
    pub gap: u64,
}

// The size of an order's plain form and the shapes of its spans; or a size over 65,536, where no more was counted.
#[derive(Clone, Copy)]
pub struct Measure {
    pub shapes: [Shape; 256],
    pub bytes: usize,
}
