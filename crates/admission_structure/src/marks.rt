// The marks of each section: how many, and on which lanes. Over the words, which a road's model hides.
ghost use Rattle.std.specs.Prelude.{◌≡◌, ◌+◌, ◌*◌, get_or, ltb};
ghost use Rattle.records_lent.specs.Lists.{all_below};
ghost use Rattle.records.specs.Layout.{section_count_at, mark_words, mark_stride};
ghost use Rattle.admission_structure.specs.Structure.{marks_ok};

use crate::structure::range_ok;
use records::layout::{
    LEFT_WORDS, MARK_COUNT_WORDS, MARK_STRIDE, MARK_WORDS, MOST_MARKS, MOST_MARKS_A_SECTION,
    RIGHT_WORDS, SECTION_COUNT_AT, SECTION_MARK_STRIDE, SECTION_MARK_WORDS, SECTION_STRIDE,
};
use records_lent::{raw_word, word};

// Each of n marks from the first on is on one of so many lanes.
fn on_lanes(words: &[u16], first: u16, n: u16, lanes: usize) -> bool
    ensures { result ≡ all_below (λ j. ltb (get_or words.now (mark_words + (first + j) * mark_stride) 0) lanes) n }
{
    let first = usize::from(first);
    (0..n).all(|j| word(words, MARK_WORDS + (first + usize::from(j)) * MARK_STRIDE) < lanes)
}

// A section's marks: their number first, then the lane of each. Its lanes are counted here too: `section_ok` tests left and right each before it adds them, and
// a function of the sum would read both words again for it.
#[tactic(auto, unfolding(crate::specs::Structure::marks_ok))]
fn section_marks_ok(words: &[u16], i: u16) -> bool
    ensures { result ≡ marks_ok words.now i }
{
    let at = usize::from(i) * SECTION_MARK_STRIDE;
    let k = SECTION_MARK_WORDS + at;
    let section = usize::from(i) * SECTION_STRIDE;
    let lanes = word(words, LEFT_WORDS + section) + word(words, RIGHT_WORDS + section);
    range_ok(words, k, 0, MOST_MARKS_A_SECTION, MOST_MARKS)
        && on_lanes(
            words,
            raw_word(words, k),
            raw_word(words, MARK_COUNT_WORDS + at),
            lanes,
        )
}

// The marks of every section.
pub(crate) fn all_marks_ok(words: &[u16]) -> bool
    ensures { result ≡ all_below (marks_ok words.now) (get_or words.now section_count_at 0) }
{
    let n = raw_word(words, SECTION_COUNT_AT);
    (0..n).all(|i| section_marks_ok(words, i))
}
