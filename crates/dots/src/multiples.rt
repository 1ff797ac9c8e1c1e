// The multiples of a spacing.
ghost use Rattle.std.specs.Prelude.{◌≡◌, ◌≤◌, ◌+◌};
ghost use Rattle.dots.specs.Dots.{multiple, most_multiples, multiples};

// The most multiples that a line may have.
pub(crate) const MOST_MULTIPLES: usize = 65536;

// One more is counted, so as to see that it is over.
const MOST_COUNTED: usize = MOST_MULTIPLES + 1;

// The k-th multiple, from 0 on: one product, not a sum.
pub(crate) fn multiple(spacing: f32, k: usize) -> f32
    requires { k ≤ most_multiples + 1 }
    ensures { result ≡ multiple spacing k }
{
    k as f32 * spacing
}

// How many multiples are at most a length, from the first on; over 65,536 it is 65,537.
#[tactic(auto, using(crate::proofs::LeadingSteps::counting), unfolding(crate::specs::Dots::multiples))]
pub(crate) fn multiples(spacing: f32, len: f32) -> usize
    ensures value { result ≡ multiples spacing len }
    ensures small { result ≤ most_multiples + 1 }
{
    for k in 0..MOST_COUNTED {
        if !(multiple(spacing, k) <= len) {
            return k;
        }
    }
    MOST_COUNTED
}
