// Row 4: mark spans.
#![tactic(auto)]

mod marks;

pub use marks::all_marks_limited;
