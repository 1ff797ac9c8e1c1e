// Row 3, by the words: counts, codes and ranges.
#![tactic(auto)]

mod marks;
mod structure;

pub use structure::structured;
