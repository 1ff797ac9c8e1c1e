// Row 3, by the numbers: order.
#![tactic(auto)]

mod marks;
mod order;

pub use order::ordered;
