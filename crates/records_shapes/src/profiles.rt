// Profiles with their shapes. A profile is the road and a number, and no value as a strip is: the search for the active one and the order ask for starts
// alone, and of a value they would read its shapes' words too.
ghost use Rattle.std.specs.Prelude.{◌≡◌, ◌<◌, [], length};
ghost use Rattle.records.specs.Roads.{profile_at};

use records::LentRoad;
use records::layout::{PROFILE_BASE, PROFILE_COUNT_AT, PROFILE_STRIDE, PROFILE_WORDS, SHAPE_BASE};
use records_cubic::Cubics;
use records_lent::{number_in, word};

pub fn profile_count(road: &LentRoad) -> usize
    ensures value { result ≡ length road.now.profiles }
    ensures small { result < 65536 }
{
    word(road.words, PROFILE_COUNT_AT)
}

// Where the i-th profile stands, NaN where there is none.
pub fn profile_start(road: &LentRoad, i: usize) -> f64
    ensures { result ≡ (profile_at road.now i).s }
{
    number_in(road.numbers, PROFILE_BASE, profile_count(road), i)
}

pub(crate) fn no_cubics<'a>() -> Cubics<'a>
    ensures { result ≡ [] }
{
    Cubics::new(&[])
}

pub fn shapes<'a>(road: &LentRoad<'_, 'a>, i: usize) -> Cubics<'a>
    ensures { result ≡ (profile_at road.now i).shapes }
{
    if i < profile_count(road) {
        let at = PROFILE_WORDS + i * PROFILE_STRIDE;
        Cubics::of_range(road.words, at, road.numbers, SHAPE_BASE)
    } else {
        no_cubics()
    }
}
