// Row 4 of profiles and strips.
ghost use Rattle.std.specs.Prelude.{◌≡◌, ℕ, [], length, get_or};
ghost use Rattle.records_lent.specs.Lists.{all_below};
ghost use Rattle.records.specs.Roads.{strip_at, present};
ghost use Rattle.arithmetic_ranges.specs.Ranges.{largest};
ghost use Rattle.admission.specs.Limits.{road_cubics_within, profile_limited, terms_bound, strip_limited};

use admission::{on_road, road_cubics_within};
use admission_bounds::{cubics_within, greatest_bound};
use arithmetic_ranges::LARGEST;
use arithmetic_sine::horner;
use records::LentRoad;
use records::layout::{STRIP_TERMS, STRIPS};
use records_shapes::{LentStrip, profile_count, profile_start, shapes, strip};

const GREATEST_SHAPE_START: f64 = 80.0;

const SHAPES_END: f64 = 80.0;

const GREATEST_SHAPE: f64 = 40.0;

const GREATEST_STRIP_WIDTH: f64 = 100.0;

const FARTHEST_ACROSS: f64 = 88.0;

const GREATEST_STRIP_HEIGHT: f64 = 40.0;

#[tactic(auto, unfolding(admission::specs::Limits::profile_limited))]
fn profile_limited(road: &LentRoad, i: usize) -> bool
    ensures { result ≡ profile_limited road.now i }
{
    on_road(road, profile_start(road, i))
        && cubics_within(
            &shapes(road, i),
            -GREATEST_SHAPE_START,
            GREATEST_SHAPE_START,
            SHAPES_END,
            GREATEST_SHAPE,
        )
}

pub fn profiles_limited(road: &LentRoad) -> bool
    ensures { result ≡ all_below (profile_limited road.now) (length road.now.profiles) }
{
    (0..profile_count(road)).all(|i| profile_limited(road, i))
}

// The four terms at their greatest, by Horner at 88.
#[tactic(auto, unfolding(arithmetic_sine::specs::Sine::horner))]
fn terms_bound(road: &LentRoad, strip: &LentStrip) -> f64
    ensures { result ≡ terms_bound road.now (present strip.now) }
{
    let bound = |power| greatest_bound(&strip.term(power), road.length());
    horner(FARTHEST_ACROSS, bound(3), &[bound(2), bound(1), bound(0)])
}

fn terms_within(road: &LentRoad, strip: &LentStrip) -> bool
    ensures { result ≡ all_below (λ (power : ℕ). road_cubics_within road.now (get_or strip.now.terms power []) largest) 4 }
{
    (0..STRIP_TERMS as u8).all(|power| road_cubics_within(road, &strip.term(power), LARGEST))
}

// The width, the terms, and how high the terms reach together.
#[tactic(auto, unfolding(admission::specs::Limits::strip_limited))]
fn columns_limited(road: &LentRoad, strip: &LentStrip) -> bool
    ensures { result ≡ strip_limited road.now (present strip.now) }
{
    road_cubics_within(road, &strip.width(), GREATEST_STRIP_WIDTH)
        && terms_within(road, strip)
        && (terms_bound(road, strip) <= GREATEST_STRIP_HEIGHT)
}

// A strip that is not there has no cubics, and passes without their being looked for.
fn strip_limited(road: &LentRoad, i: usize) -> bool
    ensures { result ≡ strip_limited road.now (strip_at road.now i) }
{
    match strip(road, i) {
        Some(strip) => columns_limited(road, &strip),
        None => true,
    }
}

pub fn strips_limited(road: &LentRoad) -> bool
    ensures { result ≡ all_below (λ (i : ℕ). strip_limited road.now (strip_at road.now i)) 4 }
{
    (0..STRIPS).all(|i| strip_limited(road, i))
}
