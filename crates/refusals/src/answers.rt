// An answer in one number, as the C interface gives it back and the tests' lists have it.
ghost use Rattle.std.specs.Prelude.{◌≡◌};
ghost use Rattle.refusals.specs.Answer.{answered, answer_number};

use crate::refusals::Refusal;

// 0 for values, else the number of the refusal.
pub fn answer_number<T>(answer: &Result<T, Refusal>) -> u32
    ensures { result ≡ answer_number (answered answer.now) }
{
    match answer {
        Ok(_) => 0,
        Err(why) => u32::from(*why),
    }
}
