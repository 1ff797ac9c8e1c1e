// The functions that vectors name.
ghost use Rattle.std.specs.Prelude.{◌≡◌};
ghost use Rattle.test_vectors.specs.Vector.{function_of, word_of};

use crate::patterns::bits_of_counts;
use reader_hex::{bits_of, bits_of_single};
use std::fmt;

#[derive(Clone, Copy)]
pub(crate) enum Function {
    Root,
    Narrow,
    Sine,
    Cosine,
    Counts,
}

impl fmt::Display for Function {
    fn fmt<W: fmt::Write>(&self, f: &mut fmt::Formatter<W>) -> fmt::Result {
        f.write_str(match self {
            Function::Root => "root",
            Function::Narrow => "narrow",
            Function::Sine => "sine",
            Function::Cosine => "cosine",
            Function::Counts => "counts",
        })
    }
}

impl Function {
    pub(crate) const COUNT: usize = 5;

    pub(crate) const ALL: [Function; Function::COUNT] = [
        Function::Root,
        Function::Narrow,
        Function::Sine,
        Function::Cosine,
        Function::Counts,
    ];

    // The function of a letter.
    #[tactic(auto, unfolding(crate::specs::Vector::function_of))]
    pub(crate) fn named(letter: u8) -> Option<Function>
        ensures { result ≡ function_of letter }
    {
        match letter {
            b'r' => Some(Function::Root),
            b'n' => Some(Function::Narrow),
            b's' => Some(Function::Sine),
            b'c' => Some(Function::Cosine),
            b'k' => Some(Function::Counts),
            _ => None,
        }
    }

    // What it answers, as digits would write it.
    pub(crate) fn answer(self, x: f64) -> u64
        ensures { result ≡ word_of self x }
    {
        match self {
            Function::Root => bits_of(arithmetic::root(x)),
            Function::Narrow => bits_of_single(arithmetic::narrow(x)),
            Function::Sine => bits_of(arithmetic_sine::sin_cos(x).sin),
            Function::Cosine => bits_of(arithmetic_sine::sin_cos(x).cos),
            Function::Counts => bits_of_counts(arithmetic_counts::counts(x)),
        }
    }
}
