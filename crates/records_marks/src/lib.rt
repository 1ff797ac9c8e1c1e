// The mark spans of a section, and whether one of them covers a station.
#![tactic(auto)]

mod marks;

pub use marks::{LentMarks, covered, covers, section_marks};
