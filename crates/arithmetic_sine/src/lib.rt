// Document 01's stand-ins for sine, cosine and tangent, and the floor and Horner's rule that they take. In f64 and integer work alone, so that every answer is the same bits on every machine.
#![tactic(auto)]

mod floors;
mod quotients;
mod sine;

pub use floors::floor;
pub use sine::{SinCos, horner, sin_cos, tan};
