// What a call gives back, as a C function gives it.
ghost use Rattle.std.specs.Prelude.{◌≡◌};
ghost use Rattle.refusals.specs.Answer.{answered, answer_number};
ghost use Rattle.riftkettle.specs.Exports.{left_by};

use refusals::{Refusal, answer_number};

// Puts a value behind a pointer; a refusal leaves what is there.
pub(crate) fn leave<T: Copy>(answer: Result<T, Refusal>, to: &mut T) -> u32
    ensures value { result ≡ answer_number (answered answer) }
    ensures to_after { to.new ≡ left_by (λ x. x) (answered answer) to.old }
{
    let number = answer_number(&answer);
    if let Ok(value) = answer {
        *to = value;
    }
    number
}
