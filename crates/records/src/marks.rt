// A mark in lent words and numbers.
use crate::layout::{MARK_KIND_WORDS, MARK_STRIDE, MARK_WORDS, SPAN_BASE, SPAN_STRIDE};
use crate::points::Mark;
use records_lent::{Line, number, word};

impl<'a> Line<&'a [f64]> for Mark {
    ghost use Rattle.std.specs.Prelude.{◌≡◌};
    ghost use Rattle.records.specs.Roads.{mark_in, no_mark};

    ghost at = { λ words numbers line. mark_in words numbers.now line };

    ghost none = { no_mark };

    #[tactic(auto, unfolding(crate::specs::Roads::mark_in))]
    fn at(words: &[u16], numbers: &'a [f64], line: u32) -> Self {
        let line = line as usize;
        let at = line * MARK_STRIDE;
        let n = SPAN_BASE + line * SPAN_STRIDE;
        Mark {
            lane: word(words, MARK_WORDS + at),
            kind: word(words, MARK_KIND_WORDS + at),
            start: number(numbers, n),
            end: number(numbers, n + 1),
        }
    }

    #[tactic(auto, unfolding(crate::specs::Roads::mark_in))]
    fn none() -> Self
        ensures { result ≡ no_mark }
    {
        Self::at(&[], &[], 0)
    }
}
