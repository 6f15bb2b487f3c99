// The listing of a file, as text in lent memory: the fields of a line, the lines of a played track, the first readable track, which a reading
// head finds, and the operation itself.
#![tactic(auto)]

mod first;
mod head;
mod line;
mod name;
mod number;
mod operation;
mod rows;
mod top;

pub use first::first_track;
pub use operation::list;
