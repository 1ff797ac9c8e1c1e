// Dots at equal spacing along a line whose points have road stations: `along` and `station_at` of src/road.rs, the multiples of a spacing, and those kept. Total over any line and any stations; the call that refuses is in dots_calls.
#![tactic(auto)]

mod arc_lengths;
mod lists;
mod multiples;
mod stations;

pub use arc_lengths::{along, nth_station};
pub use lists::DotLine;
pub use stations::station_at;
