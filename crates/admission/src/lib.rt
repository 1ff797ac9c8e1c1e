// Admission, the definitions: rows 3, 4 and 5 of document 01, the whole road for each row in turn; and the tests of a station and of cubics along the road.
#![tactic(auto)]

mod tables;

pub use tables::{on_road, road_cubics_within};
