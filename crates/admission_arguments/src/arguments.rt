// The tests of a call's place. NaN is outside every range.
ghost use Rattle.std.specs.Prelude.{◌≡◌};
ghost use Rattle.admission_arguments.specs.Arguments.{across_road};

use arithmetic_ranges::in_range;

// Half of the road's width.
const HALF_WIDTH: f64 = 80.0;

// Row 8: t in -80..80. Answers whether, as `on_road` does, and no refusal: surface_locate asks both of the place where it stops, and refuses nothing there.
pub fn across_road(t: f64) -> bool
    ensures { result ≡ across_road t }
{
    in_range(-HALF_WIDTH, HALF_WIDTH, t)
}
