// The lanes of one side of a section.
ghost use Rattle.std.specs.Prelude.{◌≡◌, ◌<◌, cond};
ghost use Rattle.records.specs.Roads.{section_of, lane_of};
ghost use Rattle.records_lanes.specs.Lines.{side_line};

use crate::lanes::LentLane;
use records::layout::{LEFT_WORDS, SECTION_COUNT_AT, SECTION_STRIDE, SECTION_WORDS};
use records::{LanePlace, LentRoad};
use records_lent::{Lines, word};
use records_sections::lane_count;

// A side's lanes, from the center outward.
pub type LentSide<'w, 'a> = Lines<'w, &'a [f64], LentLane<'a>>;

// The line of the lane table where a side's lanes begin. It takes the words: a road's model has lanes by section and side, and no lines.
fn side_line(words: &[u16], section: usize, right: bool) -> usize
    ensures value { result ≡ side_line words.now section right }
    ensures small { result < 131072 }
{
    if word(words, SECTION_COUNT_AT) <= section {
        return 0;
    }
    let start = word(words, SECTION_WORDS + section * SECTION_STRIDE);
    if right {
        start + word(words, LEFT_WORDS + section * SECTION_STRIDE)
    } else {
        start
    }
}

// The lanes of a section right of the center, or left of it.
pub fn side_lanes<'w, 'a>(road: &LentRoad<'w, 'a>, section: usize, right: bool) -> LentSide<'w, 'a>
    ensures { result ≡ cond right (section_of road.now section).right (section_of road.now section).left }
{
    let first = side_line(road.words, section, right);
    let count = lane_count(road, section, right);
    Lines::new(road.words, road.numbers, first as u32, count as u16)
}

// The lane at a place, one without extents and heights where there is none.
pub fn lane<'a>(road: &LentRoad<'_, 'a>, place: LanePlace) -> LentLane<'a>
    ensures { result ≡ lane_of road.now place.section place.right place.k }
{
    side_lanes(road, place.section, place.right).get(place.k)
}
