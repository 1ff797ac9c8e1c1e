// The reference line at a station.
ghost use Rattle.std.specs.Prelude.{◌≡◌};
ghost use Rattle.arithmetic_sine.specs.Sine.{sin_cos_of};
ghost use Rattle.records.specs.Active.{value_in};
ghost use Rattle.line_pose.specs.Bearings.{bearing_of};
ghost use Rattle.surface_station.specs.Station.{pose_at, station_of};

use arithmetic_sine::{SinCos, sin_cos};
use line_pose::{Bearing, geom_bearing};
use line_samples::{Pose, SampledRoad};
use records::{LentRoad, RefPoint};
use records_active::{geom_index, slope, value};

// The pose at s of the geometry in use there, with the lent samples.
#[tactic(auto, unfolding(crate::specs::Station::pose_at))]
pub fn pose_at(lent: &SampledRoad, s: f64) -> Pose
    ensures { result ≡ pose_at lent.now.road lent.now.samples.now s }
{
    line_pose::pose(lent, geom_index(&lent.road, s), s)
}

// The pose at s with the sine and the cosine of its heading.
#[tactic(auto, unfolding(crate::specs::Station::pose_at))]
pub fn bearing_at(lent: &SampledRoad, s: f64) -> Bearing
    ensures { result ≡ bearing_of (pose_at lent.now.road lent.now.samples.now s) }
{
    geom_bearing(lent, geom_index(&lent.road, s), s)
}

// The sine and the cosine of the bank at s, which needn't be worked out for a road without banks.
#[tactic(auto, using(crate::proofs::BankLaws::no_bank))]
pub fn bank_at(road: &LentRoad, s: f64) -> SinCos
    ensures { result ≡ sin_cos_of (value_in road.now.superelevations s) }
{
    let banks = road.superelevations();
    if banks.is_empty() {
        return SinCos { sin: 0.0, cos: 1.0 };
    }
    sin_cos(value(&banks, s))
}

// The eight numbers of the reference line at s: elevation and bank are 0, and so are their rates, where no record is active.
#[tactic(auto, unfolding(crate::specs::Station::station_of))]
pub fn station_at(lent: &SampledRoad, s: f64) -> RefPoint
    ensures { result ≡ station_of lent.now.road lent.now.samples.now s }
{
    let p = pose_at(lent, s);
    let elevations = lent.road.elevations();
    let banks = lent.road.superelevations();
    RefPoint {
        s,
        x: p.x,
        y: p.y,
        heading: p.heading,
        z: value(&elevations, s),
        grade: slope(&elevations, s),
        bank: value(&banks, s),
        bank_rate: slope(&banks, s),
    }
}
