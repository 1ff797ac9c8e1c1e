// What the limits along a road are tested by: a station, and a table of cubics.
ghost use Rattle.std.specs.Prelude.{◌≡◌};
ghost use Rattle.admission.specs.Limits.{on_road, road_cubics_within};

use admission_bounds::cubics_within;
use arithmetic_ranges::in_range;
use records::LentRoad;
use records_cubic::Cubics;

// A station, or what stands along the road, in 0..length.
pub fn on_road(road: &LentRoad, s: f64) -> bool
    ensures { result ≡ on_road road.now s }
{
    in_range(0.0, road.length(), s)
}

// Every cubic starts on the road, and its bound over its reach is at most the limit.
pub fn road_cubics_within(road: &LentRoad, cubics: &Cubics, limit: f64) -> bool
    ensures { result ≡ road_cubics_within road.now cubics.now limit }
{
    let length = road.length();
    cubics_within(cubics, 0.0, length, length, limit)
}
