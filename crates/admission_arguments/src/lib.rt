// The tests of a place on a road that calls share.
#![tactic(auto)]

mod arguments;

pub use admission::on_road;
pub use arguments::across_road;
