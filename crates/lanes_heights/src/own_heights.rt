// A lane's own heights: linear from one to the next, the first before all, the last after all.
ghost use Rattle.std.specs.Prelude.{◌≡◌};
ghost use Rattle.lanes.specs.Lateral.{height_of, height_between};

use arithmetic_ranges::{blend, fraction};
use lanes::BorderHeights;
use records::{HeightDef, Heights};
use records_active::active;

// The heights straight from those of a to those of b.
fn between(a: HeightDef, b: HeightDef, into: f64) -> BorderHeights
    ensures { result ≡ height_between a b into }
{
    let f = fraction(a.s_offset, b.s_offset, into);
    BorderHeights {
        inner: blend(a.inner, b.inner, f),
        outer: blend(a.outer, b.outer, f),
    }
}

// A lane's heights at a distance into its section; 0 where it has none.
pub fn height_at(heights: &Heights, into: f64) -> BorderHeights
    ensures { result ≡ height_of heights.now into }
{
    let count = heights.len();
    match active(heights, into) {
        Some(i) if i + 1 < count => between(heights.get(i), heights.get(i + 1), into),
        Some(i) => BorderHeights::from(heights.get(i)),
        None if count == 0 => BorderHeights {
            inner: 0.0,
            outer: 0.0,
        },
        None => BorderHeights::from(heights.get(0)),
    }
}
