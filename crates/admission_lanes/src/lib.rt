// Row 4: sections and lanes.
#![tactic(auto)]

mod sections;

pub use sections::{section_end, section_extent, sections_limited};
