// The lateral profiles: each a shape across the road at its own s, and linear from one to the next.
ghost use Rattle.std.specs.Prelude.{◌≡◌, ◌+◌, ◌<◌, ◌^◌};
ghost use Rattle.lanes.specs.Lateral.{profile_height, shape_between, shape_of};

use arithmetic_ranges::{blend, fraction};
use records::LentRoad;
use records_active::{active_cubic, profile_index};
use records_shapes::{profile_count, profile_start, shapes};

// The i-th profile at t; before its first shape that shape's a.
fn profile_height(road: &LentRoad, i: usize, t: f64) -> f64
    ensures { result ≡ profile_height road.now i t }
{
    let shapes = shapes(road, i);
    match active_cubic(&shapes, t) {
        Some(shape) => shape.eval(t),
        None => shapes.get(0).a,
    }
}

// The height at t straight from the i-th profile to the next.
fn shape_between(road: &LentRoad, i: usize, s: f64, t: f64) -> f64
    requires { i + 1 < 2 ^ 64 }
    ensures { result ≡ shape_between road.now i s t }
{
    let f = fraction(profile_start(road, i), profile_start(road, i + 1), s);
    blend(
        profile_height(road, i, t),
        profile_height(road, i + 1, t),
        f,
    )
}

// The profiles' height at s and t; 0 where there is none. Four cases, as the definition has them and as a lane's heights have theirs: a value between
// (no neighbour, one, two) would be made by these four arms and be matched by three.
pub fn shape_at(road: &LentRoad, s: f64, t: f64) -> f64
    ensures { result ≡ shape_of road.now s t }
{
    let count = profile_count(road);
    match profile_index(road, s) {
        Some(i) if i + 1 < count => shape_between(road, i, s, t),
        Some(i) => profile_height(road, i, t),
        None if count == 0 => 0.0,
        None => profile_height(road, 0, t),
    }
}
