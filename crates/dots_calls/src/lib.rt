// The call that dots a lane. It checks the road whole and anew, then the samples, the lane, the spacing, the stations with the line along the lane, and the room in the list.
#![tactic(auto)]

mod dots_call;
mod lines;
mod lists;
mod stations;

pub use dots_call::dots;
