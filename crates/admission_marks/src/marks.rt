// Row 4 of mark spans.
ghost use Rattle.std.specs.Prelude.{◌≡◌, length};
ghost use Rattle.records_lent.specs.Lists.{all_below};
ghost use Rattle.admission.specs.Limits.{mark_limited, marks_limited};

use admission_lanes::section_extent;
use records::{LentRoad, Mark};
use records_marks::section_marks;
use records_sections::section_count;

const LEAST_KIND: usize = 1;

const GREATEST_KIND: usize = 255;

// The kind, and the span inside a section of this extent. Each comparison has to pass, so a NaN fails it.
#[tactic(auto, unfolding(admission::specs::Limits::mark_limited))]
fn mark_limited(extent: f64, mark: Mark) -> bool
    ensures { result ≡ mark_limited extent mark }
{
    (LEAST_KIND..=GREATEST_KIND).contains(&mark.kind)
        && (0.0 <= mark.start)
        && (mark.start <= mark.end)
        && (mark.end <= extent)
}

fn section_marks_limited(road: &LentRoad, section: usize) -> bool
    ensures { result ≡ marks_limited road.now section }
{
    let extent = section_extent(road, section);
    section_marks(road, section).all(|mark| mark_limited(extent, mark))
}

// The marks of every section.
pub fn all_marks_limited(road: &LentRoad) -> bool
    ensures { result ≡ all_below (marks_limited road.now) (length road.now.sections) }
{
    (0..section_count(road)).all(|i| section_marks_limited(road, i))
}
