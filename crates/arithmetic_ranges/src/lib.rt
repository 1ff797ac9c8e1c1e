// Sizes and ranges of numbers.
#![tactic(auto)]

mod ranges;

pub use ranges::{
    LARGEST, abs, at_least_zero, blend, clamp, fraction, in_range, sized, width_or_zero,
};
