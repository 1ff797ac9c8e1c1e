// The geometry, the section and the profile at a station.
ghost use Rattle.std.specs.Prelude.{◌≡◌, ℕ, length};
ghost use Rattle.records.specs.Active.{last_start, active_up_to};
ghost use Rattle.records.specs.Roads.{profile_at, geom_index, section_index};

use crate::scan::last_started;
use records::LentRoad;
use records_geometry::geom;
use records_sections::{section_count, section_start};
use records_shapes::{profile_count, profile_start};

// The geometry at s: the last that starts at or before s + 1e-9, else the first.
pub fn geom_index(road: &LentRoad, s: f64) -> usize
    ensures { result ≡ geom_index road.now s }
{
    let n = road.geom_count();
    last_started(n, s, |i| geom(road, i).s).unwrap_or(0)
}

// The section at s: the last that starts at or before s + 1e-9, else the first.
pub fn section_index(road: &LentRoad, s: f64) -> usize
    ensures { result ≡ section_index road.now s }
{
    let n = section_count(road);
    last_started(n, s, |i| section_start(road, i)).unwrap_or(0)
}

// The last profile that stands at or before s + 1e-9.
pub fn profile_index(road: &LentRoad, s: f64) -> Option<usize>
    ensures { result ≡ last_start (λ (i : ℕ). (profile_at road.now i).s) (active_up_to s) (length road.now.profiles) }
{
    let n = profile_count(road);
    last_started(n, s, |i| profile_start(road, i))
}
