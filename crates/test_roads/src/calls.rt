// What the calls of the surface layer answer, as a row of numbers: 0 and the answer's own, or the number of the refusal. Zeros fill the row.
//
// Calls take the two lent slices and no road: whether one lies there is what they test.
ghost use Rattle.std.specs.Prelude.{◌≡◌, ◌≤◌};
ghost use Rattle.refusals.specs.Answer.{answered};
ghost use Rattle.test_roads.specs.CallNumbers.{row_of, station_numbers, axes_numbers, point_numbers, position_numbers, id_number, call_of, call_numbers};

use reader_hex::of_bits;
use records::RefPoint;
use refusals::Refusal;
use std::num::f32_to_f64_with_nan;
use surface_locate::Position;
use surface_points::SurfacePoint32;
use surface_station::Axes;
use test_support::Line;

// 0 and the numbers of an answer, or the number of the refusal.
fn row(answer: Result<[f64; 9], Refusal>) -> [f64; 10]
    ensures { result ≡ row_of (answered answer) }
{
    let mut row = [0.0; 10];
    match answer {
        Ok(numbers) => row[1..].copy_from_slice(&numbers),
        Err(why) => row[0] = f64::from(u32::from(why)),
    }
    row
}

fn station_numbers(p: RefPoint) -> [f64; 9]
    ensures { result ≡ station_numbers p }
{
    [
        p.s,
        p.x,
        p.y,
        p.heading,
        p.z,
        p.grade,
        p.bank,
        p.bank_rate,
        0.0,
    ]
}

// riftkettle writes the nine in this order too. There it is the C interface's, here the list's, and a `From` of surface_station could say neither.
fn axes_numbers(a: Axes) -> [f64; 9]
    ensures { result ≡ axes_numbers a }
{
    let l = a.along;
    let v = a.across;
    let u = a.up;
    [l.x, l.y, l.z, v.x, v.y, v.z, u.x, u.y, u.z]
}

// x, y and z as f64, which holds every f32.
fn point_numbers(p: SurfacePoint32) -> [f64; 9]
    ensures { result ≡ point_numbers p }
{
    let q = p.point;
    let x = f32_to_f64_with_nan(q.x);
    let y = f32_to_f64_with_nan(q.y);
    let z = f32_to_f64_with_nan(q.z);
    [x, y, z, p.heading, 0.0, 0.0, 0.0, 0.0, 0.0]
}

// Met is 1, astray 0.
fn position_numbers(p: Position) -> [f64; 9]
    ensures { result ≡ position_numbers p }
{
    let moves = f64::from(p.moves);
    let met = f64::from(p.converged);
    [p.s, p.t, moves, met, 0.0, 0.0, 0.0, 0.0, 0.0]
}

// The id that a number stands for: k for 2 k, -1 - k for 2 k + 1. So every i32 has one.
fn id(n: u64) -> i32
    ensures { result ≡ id_number n }
{
    let k = (n / 2 % 0x8000_0000) as i32;
    if n % 2 == 1 { -1 - k } else { k }
}

// A call that a line asks for.
#[derive(Clone, Copy)]
pub(crate) enum Call {
    Station,
    Axes,
    Surface,
    LaneSurface,
    Locate,
}

impl Call {
    // The call of a letter.
    #[tactic(auto, unfolding(crate::specs::CallNumbers::call_of))]
    pub(crate) fn named(letter: u8) -> Option<Call>
        ensures { result ≡ call_of letter }
    {
        match letter {
            b'q' => Some(Call::Station),
            b'a' => Some(Call::Axes),
            b'u' => Some(Call::Surface),
            b'v' => Some(Call::LaneSurface),
            b'x' => Some(Call::Locate),
            _ => None,
        }
    }

    // How many numbers of its row are its answer.
    pub(crate) fn count(self) -> usize
        ensures { result ≤ 10 }
    {
        match self {
            Call::Station => 9,
            Call::Axes => 10,
            Call::Surface | Call::LaneSurface | Call::Locate => 5,
        }
    }

    // The row of its answer; with is the line's third argument: the id of a lane, or a guess.
    pub(crate) fn row(
        self,
        line: Line,
        with: u64,
        words: &[u16],
        numbers: &[f64],
        samples: &[f64],
    ) -> [f64; 10]
        ensures { result ≡ call_numbers self line.a line.b with words.now numbers.now samples.now }
    {
        let x = of_bits(line.a);
        let y = of_bits(line.b);
        match self {
            Call::Station => row(surface_calls::station(words, numbers, samples, x).map(
                station_numbers,
            )),
            Call::Axes => row(surface_calls::axes(words, numbers, samples, x).map(axes_numbers)),
            Call::Surface => row(surface_calls::surface(words, numbers, samples, x, y).map(
                point_numbers,
            )),
            Call::LaneSurface => row(surface_calls::lane_surface(
                words,
                numbers,
                samples,
                id(with),
                x,
                y,
            ).map(point_numbers)),
            Call::Locate => row(surface_calls::locate(
                words,
                numbers,
                samples,
                x,
                y,
                of_bits(with),
            ).map(position_numbers)),
        }
    }
}
