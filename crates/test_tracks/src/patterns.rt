// An f32 as it is written.
ghost use Rattle.std.specs.Prelude.{◌≡◌};
ghost use Rattle.test_tracks.specs.Patterns.{pattern_of};

use std::num::f32_to_bits_with_nan;

// The pattern of an f32. Two that compare as equal have one (document 01: zeros of either sign, any two NaNs): 0 for a zero, 7fc00000 for
// a NaN. test_roads has it of f64: one function of both would need a trait for the zero and for each type's bits.
#[tactic(auto, unfolding(crate::specs::Patterns::pattern_of))]
pub(crate) fn pattern(x: f32) -> u32
    ensures { result ≡ pattern_of x }
{
    if x == 0.0 {
        return 0;
    }
    f32_to_bits_with_nan(x)
}
