// The station list of a section.
ghost use Rattle.std.specs.Prelude.{◌≡◌, ◌-◌, length};
ghost use Rattle.dots.specs.Along.{nth_station};
ghost use Rattle.dots_calls.specs.DotsCall.{rising, stations_listed};

use admission_lanes::section_end;
use dots::nth_station;
use records::LentRoad;
use records_sections::section_start;

// The fewest and the most stations of a line.
const LEAST_STATIONS: usize = 2;

pub(crate) const MOST_STATIONS: usize = 512;

// Whether each station is above the one before it.
#[tactic(auto, using(crate::proofs::LineSteps::stationing))]
fn rising(stations: &[f64]) -> bool
    ensures { result ≡ rising (nth_station stations.now) (length stations.now - 1) }
{
    let mut ok = true;
    for k in 0..stations.len().saturating_sub(1) {
        ok &= nth_station(stations, k) < nth_station(stations, k + 1);
    }
    ok
}

// Whether a list is one of a section: 2 to 512 stations that rise, from its start on and up to its end.
#[tactic(auto, unfolding(crate::specs::DotsCall::stations_listed))]
pub(crate) fn stations_listed(road: &LentRoad, section: usize, stations: &[f64]) -> bool
    ensures { result ≡ stations_listed road.now section stations.now }
{
    let last = nth_station(stations, stations.len().saturating_sub(1));
    (LEAST_STATIONS..=MOST_STATIONS).contains(&stations.len())
        && rising(stations)
        && section_start(road, section) <= nth_station(stations, 0)
        && last <= section_end(road, section)
}
