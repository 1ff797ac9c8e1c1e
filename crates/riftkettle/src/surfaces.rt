// Calls on a road in lent memory with its samples: stations, axes, the surface, and where a point lies on it. Each checks the road whole and anew.
// The C interface lends a road's two slices as they are; the calls below make a road of them.
ghost use Rattle.std.specs.Prelude.{◌≡◌};
ghost use Rattle.refusals.specs.Answer.{answered, answer_number};
ghost use Rattle.surface_calls.specs.SurfaceCalls.{station_call, axes_call, surface_call, lane_surface_call};
ghost use Rattle.surface_calls.specs.LocateCall.{locate_call};
ghost use Rattle.riftkettle.specs.Exports.{left_by, station_list, axes_list, point_list, heading_of, pair_list, moves_of, met_of};

use crate::answers::leave;
use records::RefPoint;
use refusals::Refusal;
use surface_locate::Position;
use surface_points::SurfacePoint32;
use surface_station::Axes;

// No `From` here or below: it may stand only in a type's own crate, and the order is the C interface's, of which these know nothing. The lists of a
// point and of a pair leave fields out besides.
fn station_list(p: RefPoint) -> [f64; 8]
    ensures { result ≡ station_list p }
{
    [p.s, p.x, p.y, p.heading, p.z, p.grade, p.bank, p.bank_rate]
}

fn axes_list(a: Axes) -> [f64; 9]
    ensures { result ≡ axes_list a }
{
    let l = a.along;
    let v = a.across;
    let u = a.up;
    [l.x, l.y, l.z, v.x, v.y, v.z, u.x, u.y, u.z]
}

fn point_list(p: SurfacePoint32) -> [f32; 3]
    ensures { result ≡ point_list p }
{
    let q = p.point;
    [q.x, q.y, q.z]
}

// Refuses 3, 4, 5, 6, 7.
#[unsafe(no_mangle)]
pub extern "C" fn riftkettle_station(
    words: &[u16],
    numbers: &[f64],
    samples: &[f64],
    s: f64,
    station: &mut [f64; 8],
) -> u32
    ensures value { result ≡ answer_number (station_call words.now numbers.now samples.now s) }
    ensures station_after { station.new ≡ left_by station_list (station_call words.now numbers.now samples.now s) station.old }
{
    let found = surface_calls::station(words, numbers, samples, s);
    leave(found.map(station_list), station)
}

// Refuses 3, 4, 5, 6, 7.
#[unsafe(no_mangle)]
pub extern "C" fn riftkettle_axes(
    words: &[u16],
    numbers: &[f64],
    samples: &[f64],
    s: f64,
    axes: &mut [f64; 9],
) -> u32
    ensures value { result ≡ answer_number (axes_call words.now numbers.now samples.now s) }
    ensures axes_after { axes.new ≡ left_by axes_list (axes_call words.now numbers.now samples.now s) axes.old }
{
    leave(
        surface_calls::axes(words, numbers, samples, s).map(axes_list),
        axes,
    )
}

// A point of the surface and its heading, behind two pointers.
fn leave_point(
    found: Result<SurfacePoint32, Refusal>,
    point: &mut [f32; 3],
    heading: &mut f64,
) -> u32
    ensures value { result ≡ answer_number (answered found) }
    ensures point_after { point.new ≡ left_by point_list (answered found) point.old }
    ensures heading_after { heading.new ≡ left_by heading_of (answered found) heading.old }
{
    leave(found.map(|p| p.heading), heading);
    leave(found.map(point_list), point)
}

// Refuses 3, 4, 5, 6, 7, 8.
#[unsafe(no_mangle)]
pub extern "C" fn riftkettle_surface(
    words: &[u16],
    numbers: &[f64],
    samples: &[f64],
    s: f64,
    t: f64,
    point: &mut [f32; 3],
    heading: &mut f64,
) -> u32
    ensures value { result ≡ answer_number (surface_call words.now numbers.now samples.now s t) }
    ensures point_after { point.new ≡ left_by point_list (surface_call words.now numbers.now samples.now s t) point.old }
    ensures heading_after { heading.new ≡ left_by heading_of (surface_call words.now numbers.now samples.now s t) heading.old }
{
    let found = surface_calls::surface(words, numbers, samples, s, t);
    leave_point(found, point, heading)
}

// Refuses 3, 4, 5, 6, 7, 8, 10.
#[unsafe(no_mangle)]
pub extern "C" fn riftkettle_lane_surface(
    words: &[u16],
    numbers: &[f64],
    samples: &[f64],
    id: i32,
    s: f64,
    t: f64,
    point: &mut [f32; 3],
    heading: &mut f64,
) -> u32
    ensures value { result ≡ answer_number (lane_surface_call words.now numbers.now samples.now id s t) }
    ensures point_after { point.new ≡ left_by point_list (lane_surface_call words.now numbers.now samples.now id s t) point.old }
    ensures heading_after { heading.new ≡ left_by heading_of (lane_surface_call words.now numbers.now samples.now id s t) heading.old }
{
    let found = surface_calls::lane_surface(words, numbers, samples, id, s, t);
    leave_point(found, point, heading)
}

fn pair_list(p: Position) -> [f64; 2]
    ensures { result ≡ pair_list p }
{
    [p.s, p.t]
}

// Refuses 3, 4, 5, 6, 7, 9. Met is 1, astray 0.
#[unsafe(no_mangle)]
pub extern "C" fn riftkettle_locate(
    words: &[u16],
    numbers: &[f64],
    samples: &[f64],
    x: f64,
    y: f64,
    guess: f64,
    pair: &mut [f64; 2],
    moves: &mut u32,
    met: &mut u32,
) -> u32
    ensures value { result ≡ answer_number (locate_call words.now numbers.now samples.now x y guess) }
    ensures pair_after { pair.new ≡ left_by pair_list (locate_call words.now numbers.now samples.now x y guess) pair.old }
    ensures moves_after { moves.new ≡ left_by moves_of (locate_call words.now numbers.now samples.now x y guess) moves.old }
    ensures met_after { met.new ≡ left_by met_of (locate_call words.now numbers.now samples.now x y guess) met.old }
{
    let found = surface_calls::locate(words, numbers, samples, x, y, guess);
    leave(found.map(|p| u32::from(p.converged)), met);
    leave(found.map(|p| p.moves), moves);
    leave(found.map(pair_list), pair)
}
