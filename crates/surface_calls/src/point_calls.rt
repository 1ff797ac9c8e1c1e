// The calls at a station: the reference line and the axes there, the surface at an offset, and a lane's surface there.
// Slices are lent and no `SampledRoad`: they are one only once `sampled` has answered it.
ghost use Rattle.std.specs.Prelude.{◌≡◌};
ghost use Rattle.refusals.specs.Answer.{answered};
ghost use Rattle.surface_calls.specs.SurfaceCalls.{station_call, axes_call, surface_call, lane_surface_call};

use crate::entries::enter;
use crate::lane_ids::lane_with_id;
use admission_arguments::across_road;
use records::RefPoint;
use records_active::section_index;
use refusals::Refusal;
use surface_points::{SurfacePoint32, lane_surface_in, surface_in};
use surface_station::{Axes, axes_at, station_at};

// The eight numbers of the reference line at s, with the lent samples; rows 3, 4, 5, 6 and 7.
#[tactic(auto, unfolding(crate::specs::SurfaceCalls::station_call))]
pub fn station(words: &[u16], numbers: &[f64], samples: &[f64], s: f64) -> Result<RefPoint, Refusal>
    ensures { answered result ≡ station_call words.now numbers.now samples.now s }
{
    let lent = enter(words, numbers, samples, s)?;
    Ok(station_at(&lent, s))
}

// The road's own axes at s; rows 3, 4, 5, 6 and 7.
#[tactic(auto, unfolding(crate::specs::SurfaceCalls::axes_call))]
pub fn axes(words: &[u16], numbers: &[f64], samples: &[f64], s: f64) -> Result<Axes, Refusal>
    ensures { answered result ≡ axes_call words.now numbers.now samples.now s }
{
    let lent = enter(words, numbers, samples, s)?;
    Ok(axes_at(&lent, s))
}

// The surface at s and t: x, y and z in f32, and the heading; rows 3, 4, 5, 6, 7 and 8.
#[tactic(auto, unfolding(crate::specs::SurfaceCalls::surface_call))]
pub fn surface(
    words: &[u16],
    numbers: &[f64],
    samples: &[f64],
    s: f64,
    t: f64,
) -> Result<SurfacePoint32, Refusal>
    ensures { answered result ≡ surface_call words.now numbers.now samples.now s t }
{
    let lent = enter(words, numbers, samples, s)?;
    // here and in `lane_surface`: as a function beside `enter` the test is sixteen lines, with parameters and contract, for twice three
    if !across_road(t) {
        return Err(Refusal::Offset);
    }
    Ok(surface_in(&lent, s, t))
}

// The surface of the lane of an id at s and t, straight across the lane and on past its borders; rows 3, 4, 5, 6, 7, 8 and 10.
#[tactic(auto, unfolding(crate::specs::SurfaceCalls::lane_surface_call))]
pub fn lane_surface(
    words: &[u16],
    numbers: &[f64],
    samples: &[f64],
    id: i32,
    s: f64,
    t: f64,
) -> Result<SurfacePoint32, Refusal>
    ensures { answered result ≡ lane_surface_call words.now numbers.now samples.now id s t }
{
    let lent = enter(words, numbers, samples, s)?;
    if !across_road(t) {
        return Err(Refusal::Offset);
    }
    let place = lane_with_id(&lent.road, section_index(&lent.road, s), id).ok_or(Refusal::Lane)?;
    Ok(lane_surface_in(&lent, place, s, t))
}
