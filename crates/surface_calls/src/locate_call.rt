// A place on the road, or a refusal.
// Slices are lent and no `SampledRoad`: they are one only once `sampled` has answered it. So are x and y, which the C interface has as two numbers.
ghost use Rattle.std.specs.Prelude.{◌≡◌};
ghost use Rattle.refusals.specs.Answer.{answered};
ghost use Rattle.surface_calls.specs.LocateCall.{on_map, locate_call};

use arithmetic_ranges::sized;
use line_calls::sampled;
use refusals::Refusal;
use surface_locate::{Position, locate_from};
use surface_points::PlanVector;

const GREATEST_TARGET: f64 = 2000000.0;

// Row 9: a target in ±2,000,000.
fn on_map(target: PlanVector) -> bool
    ensures { result ≡ on_map target.x target.y }
{
    sized(GREATEST_TARGET, target.x) & sized(GREATEST_TARGET, target.y)
}

// Where the point x, y lies on the road, from a guess of s, with the lent samples: s and t, the count of moves, and whether they converged; rows 3, 4, 5, 6, 7 and 9. On a straight road along x from the origin, target 3, 2 and guess 3: s 3, t 2, no move, converged.
#[tactic(auto, using(arithmetic_ranges::proofs::FiniteLaws::finite_is), unfolding(crate::specs::LocateCall::locate_call))]
pub fn locate(
    words: &[u16],
    numbers: &[f64],
    samples: &[f64],
    x: f64,
    y: f64,
    guess: f64,
) -> Result<Position, Refusal>
    ensures { answered result ≡ locate_call words.now numbers.now samples.now x y guess }
{
    let lent = sampled(words, numbers, samples)?;
    if !guess.is_finite() {
        return Err(Refusal::Station);
    }
    let target = PlanVector { x, y };
    if !on_map(target) {
        return Err(Refusal::Target);
    }
    Ok(locate_from(&lent, target, guess))
}
