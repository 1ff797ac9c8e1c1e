// Numbers as they are written: two that compare as equal are written alike (document 01: zeros of either sign, any two NaNs).
// test_roads has this too.
ghost use Rattle.std.specs.Prelude.{◌≡◌};
ghost use Rattle.test_dots.specs.Case.{pattern_of};

use reader_hex::bits_of;

#[tactic(auto, unfolding(crate::specs::Case::pattern_of))]
pub(crate) fn pattern(x: f64) -> u64
    ensures { result ≡ pattern_of x }
{
    if x == 0.0 {
        return 0;
    }
    bits_of(x)
}
