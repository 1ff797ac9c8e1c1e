// The mark spans of a road's sections: what is painted where along a lane.
ghost use Rattle.std.specs.Prelude.{◌≡◌};
ghost use Rattle.records.specs.Roads.{section_of};
ghost use Rattle.records_marks.specs.Covers.{covers, paints, covered};

use records::layout::{MARK_COUNT_WORDS, SECTION_MARK_STRIDE, SECTION_MARK_WORDS};
use records::{LentRoad, Mark};
use records_lent::{Lines, raw_word};
use records_sections::{section_count, section_start};

// Marks one after another in the mark table.
pub type LentMarks<'w, 'a> = Lines<'w, &'a [f64], Mark>;

// The marks of a section.
pub fn section_marks<'w, 'a>(road: &LentRoad<'w, 'a>, section: usize) -> LentMarks<'w, 'a>
    ensures { result ≡ (section_of road.now section).marks }
{
    if section < section_count(road) {
        let at = section * SECTION_MARK_STRIDE;
        let first = raw_word(road.words, SECTION_MARK_WORDS + at);
        let count = raw_word(road.words, MARK_COUNT_WORDS + at);
        Lines::new(road.words, road.numbers, u32::from(first), count)
    } else {
        Lines::new(road.words, road.numbers, 0, 0)
    }
}

// Whether a mark's span covers the place d metres into its section. Its end is not covered: there the next span may start.
pub fn covers(mark: Mark, d: f64) -> bool
    ensures { result ≡ covers mark d }
{
    (mark.start..mark.end).contains(&d)
}

// Whether a mark is of a kind, on a lane, and covers d.
fn paints(mark: Mark, lane: usize, kind: usize, d: f64) -> bool
    ensures { result ≡ paints mark lane kind d }
{
    (mark.lane == lane) & (mark.kind == kind) & covers(mark, d)
}

// Whether a span of a kind covers a lane of a section at s; the lane by its place in the section, left ones outward, then right ones.
pub fn covered(road: &LentRoad, section: usize, lane: usize, kind: usize, s: f64) -> bool
    ensures { result ≡ covered road.now section lane kind s }
{
    let d = s - section_start(road, section);
    section_marks(road, section).any(|mark| paints(mark, lane, kind, d))
}
