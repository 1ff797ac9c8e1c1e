// The dots of a lane into a lent list, with the rows that come after the lane's.
ghost use Rattle.std.specs.Prelude.{◌≡◌, ◌++◌, ◌*◌, ◌≤◌, ◌<◌, length, drop};
ghost use Rattle.refusals.specs.Answer.{answered, checked, value};
ghost use Rattle.refusals.specs.LentLists.{list_left};
ghost use Rattle.admission.specs.Admission.{pass};
ghost use Rattle.dots_calls.specs.DotsCall.{most_stations, lane_rank, spaced, dots_of, line_rows, dot_rows};

use crate::lines::write_line;
use crate::stations::{MOST_STATIONS, stations_listed};
use coordinates::POINT_STRIDE;
use dots::DotLine;
use line_samples::SampledRoad;
use records::{LanePlace, LentRoad};
use records_sections::lane_count;
use refusals::Refusal;
use tracks_calls::checked_track;

// The numbers of the longest line.
const MOST_NUMBERS: usize = MOST_STATIONS * POINT_STRIDE;

// The closest and the widest spacing, in metres.
const LEAST_SPACING: f32 = 0.1;

const GREATEST_SPACING: f32 = 100.0;

// Row 15.
fn spaced(spacing: f32) -> bool
    ensures { result ≡ spaced spacing }
{
    (LEAST_SPACING <= spacing) & (spacing <= GREATEST_SPACING)
}

// A lane's rank in its section: left ones outward, then right ones.
fn lane_rank(road: &LentRoad, place: LanePlace) -> usize
    requires { place.k < 65536 }
    ensures { result ≡ lane_rank road.now place }
{
    if place.right {
        lane_count(road, place.section, false) + place.k
    } else {
        place.k
    }
}

// The dots along a line that is still to be made; rows 16, of the line, and 17.
fn dot_line(
    lent: &SampledRoad,
    place: LanePlace,
    spacing: f32,
    stations: &[f64],
    list: &mut [f64],
) -> Result<usize, Refusal>
    requires { (length stations.now ≤ most_stations) × (place.k < 65536) }
    ensures result_value { answered result ≡ checked (line_rows lent.now.road lent.now.samples.now spacing stations.now place (length list.old)) (value (length (dots_of lent.now.road lent.now.samples.now spacing stations.now place))) }
    ensures list_after { list.new ≡ list_left (pass (line_rows lent.now.road lent.now.samples.now spacing stations.now place (length list.old))) (dots_of lent.now.road lent.now.samples.now spacing stations.now place) list.old }
{
    let mut line = [0.0; MOST_NUMBERS];
    write_line(lent, place, stations, &mut line);
    let Ok(points) = checked_track(&line[..stations.len() * POINT_STRIDE]) else {
        return Err(Refusal::StationList);
    };
    let dots = DotLine {
        road: &lent.road,
        section: place.section,
        rank: lane_rank(&lent.road, place),
        points: &points,
        stations,
        spacing,
    };
    dots.list_dots(list).ok_or(Refusal::DotSpace)
}

// The dots of a lane; rows 15, 16 and 17.
pub(crate) fn place_dots(
    lent: &SampledRoad,
    place: LanePlace,
    spacing: f32,
    stations: &[f64],
    list: &mut [f64],
) -> Result<usize, Refusal>
    requires { place.k < 65536 }
    ensures result_value { answered result ≡ checked (dot_rows lent.now.road lent.now.samples.now spacing stations.now place (length list.old)) (value (length (dots_of lent.now.road lent.now.samples.now spacing stations.now place))) }
    ensures list_after { list.new ≡ list_left (pass (dot_rows lent.now.road lent.now.samples.now spacing stations.now place (length list.old))) (dots_of lent.now.road lent.now.samples.now spacing stations.now place) list.old }
{
    if !spaced(spacing) {
        return Err(Refusal::Spacing);
    }
    if !stations_listed(&lent.road, place.section, stations) {
        return Err(Refusal::StationList);
    }
    dot_line(lent, place, spacing, stations, list)
}
