// The sections of a road: starts, and lanes on either side. A section is the road and a number, and no value of its own: most that is asked of one at a
// station needs the road too, its offset, elevation and length, so such a value would stand beside the road and not in its place.
ghost use Rattle.std.specs.Prelude.{◌≡◌, ◌<◌, cond, length};
ghost use Rattle.records.specs.Roads.{section_of};

use records::LentRoad;
use records::layout::{LEFT_WORDS, RIGHT_WORDS, SECTION_BASE, SECTION_COUNT_AT, SECTION_STRIDE};
use records_lent::{number_in, word};

pub fn section_count(road: &LentRoad) -> usize
    ensures value { result ≡ length road.now.sections }
    ensures small { result < 65536 }
{
    word(road.words, SECTION_COUNT_AT)
}

// Where the i-th section starts, NaN where there is none.
pub fn section_start(road: &LentRoad, i: usize) -> f64
    ensures { result ≡ (section_of road.now i).start }
{
    number_in(road.numbers, SECTION_BASE, section_count(road), i)
}

// How many lanes a section has right of the center, or left of it.
pub fn lane_count(road: &LentRoad, section: usize, right: bool) -> usize
    ensures value { result ≡ length (cond right (section_of road.now section).right (section_of road.now section).left) }
    ensures small { result < 65536 }
{
    if section < section_count(road) {
        let first = if right { RIGHT_WORDS } else { LEFT_WORDS };
        word(road.words, first + section * SECTION_STRIDE)
    } else {
        0
    }
}
