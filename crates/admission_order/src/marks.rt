// The order of a section's marks. Lines of other lanes may stand between two of one lane, so each is held against all before it.
ghost use Rattle.std.specs.Prelude.{◌≡◌, ℕ, length, get_or};
ghost use Rattle.records_lent.specs.Lists.{all_below};
ghost use Rattle.records.specs.Roads.{no_mark};
ghost use Rattle.admission_order.specs.Order.{starts_in_order, marks_in_order};

use records::{LentRoad, Mark};
use records_marks::{LentMarks, section_marks};

// Of two marks on one lane the later starts no earlier.
fn starts_in_order(a: Mark, b: Mark) -> bool
    ensures { result ≡ starts_in_order a b }
{
    (a.lane != b.lane) | (a.start <= b.start)
}

// The j-th mark of a section against each before it.
fn mark_in_order(marks: &LentMarks, j: usize) -> bool
    ensures { result ≡ all_below (λ (h : ℕ). starts_in_order (get_or marks.now h no_mark) (get_or marks.now j no_mark)) j }
{
    let later = marks.get(j);
    // by index: of a j past the marks `take` would see fewer
    (0..j).all(|h| starts_in_order(marks.get(h), later))
}

fn section_marks_in_order(road: &LentRoad, section: usize) -> bool
    ensures { result ≡ marks_in_order road.now section }
{
    let marks = section_marks(road, section);
    (0..marks.len()).all(|j| mark_in_order(&marks, j))
}

// The marks of every section.
pub(crate) fn all_marks_in_order(road: &LentRoad) -> bool
    ensures { result ≡ all_below (marks_in_order road.now) (length road.now.sections) }
{
    let n = records_sections::section_count(road);
    (0..n).all(|i| section_marks_in_order(road, i))
}
