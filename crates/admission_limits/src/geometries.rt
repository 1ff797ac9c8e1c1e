// Row 4 of geometries and elevations.
ghost use Rattle.std.specs.Prelude.{◌≡◌, ◌&&◌, length};
ghost use Rattle.records_lent.specs.Lists.{all_below};
ghost use Rattle.admission_bounds.specs.Bounds.{slopes_within};
ghost use Rattle.admission.specs.Limits.{greatest_elevation, greatest_grade, road_cubics_within, shape_limited, geom_limited};

use admission::{on_road, road_cubics_within};
use admission_bounds::slopes_within;
use arithmetic_ranges::{abs, in_range, sized};
use records::{GeomShape, LentRoad, STRAIGHT_CURVATURE};
use records_geometry::{geom, unused_zero};

// ---- geometries
const GREATEST_PLACE: f64 = 1000000.0;

const GREATEST_HEADING: f64 = 1000.0;

const LEAST_GEOM_LENGTH: f64 = 0.01;

const GREATEST_GEOM_LENGTH: f64 = 10000.0;

const LEAST_ARC_CURVATURE: f64 = 0.00001;

const GREATEST_ARC_CURVATURE: f64 = 1.0;

const GREATEST_SPIRAL_CURVATURE: f64 = 1.0;

#[tactic(auto, unfolding(admission::specs::Limits::shape_limited))]
fn shape_limited(shape: GeomShape) -> bool
    ensures { result ≡ shape_limited shape }
{
    match shape {
        GeomShape::Line => true,
        GeomShape::Arc(k) => {
            sized(STRAIGHT_CURVATURE, k)
                || in_range(LEAST_ARC_CURVATURE, GREATEST_ARC_CURVATURE, abs(k))
        }
        GeomShape::Spiral(a, b) => {
            sized(GREATEST_SPIRAL_CURVATURE, a) && sized(GREATEST_SPIRAL_CURVATURE, b)
        }
    }
}

#[tactic(auto, unfolding(admission::specs::Limits::geom_limited))]
fn geom_limited(road: &LentRoad, i: usize) -> bool
    ensures { result ≡ geom_limited road.now i }
{
    let g = geom(road, i);
    on_road(road, g.s)
        && sized(GREATEST_PLACE, g.x)
        && sized(GREATEST_PLACE, g.y)
        && sized(GREATEST_HEADING, g.hdg)
        && in_range(LEAST_GEOM_LENGTH, GREATEST_GEOM_LENGTH, g.length)
        && shape_limited(g.shape)
        && unused_zero(road, i)
}

pub fn geoms_limited(road: &LentRoad) -> bool
    ensures { result ≡ all_below (geom_limited road.now) (length road.now.geoms) }
{
    (0..road.geom_count()).all(|i| geom_limited(road, i))
}

// ---- elevations
const GREATEST_ELEVATION: f64 = 10000.0;

const GREATEST_GRADE: f64 = 1.0;

pub fn elevations_limited(road: &LentRoad) -> bool
    ensures { result ≡ (road_cubics_within road.now road.now.elevations greatest_elevation && slopes_within road.now.elevations road.now.length greatest_grade) }
{
    let elevations = road.elevations();
    road_cubics_within(road, &elevations, GREATEST_ELEVATION)
        && slopes_within(&elevations, road.length(), GREATEST_GRADE)
}
