// Bytes of a text, the numbers that eight and sixteen hexadecimal digits in lower case stand for, and the patterns of an f64 and an f32.
// A text and a place in it are two parameters, as the definitions take them: of a struct each contract would read out both again, and each answer that is a
// place would lend the text on.
#![tactic(auto)]

mod bytes;
mod digits;
mod patterns;

pub use bytes::{byte_at, digit};
pub use digits::{DOUBLE_DIGITS, SINGLE_DIGITS, eight_at, sixteen_at, sixteen_before};
pub use patterns::{bits_of, bits_of_single, of_bits};
