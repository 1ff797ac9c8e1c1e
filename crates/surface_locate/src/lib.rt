// Where a point lies on the road, by Newton's rule: the miss at a place, one move, the moves, and the answer with its mark.
#![tactic(auto)]

mod misses;
mod moves;
mod points;
mod starts;
mod walks;

pub use points::{Move, Place, Position, Walk};
pub use walks::locate_from;
