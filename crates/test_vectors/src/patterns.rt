// Answers as words.
ghost use Rattle.std.specs.Prelude.{◌≡◌};
ghost use Rattle.test_vectors.specs.Raise.{raised_of};
ghost use Rattle.refusals.specs.Answer.{answered};
ghost use Rattle.test_vectors.specs.Vector.{counts_word};

use refusals::Refusal;
use test_support::COUNTS_FROM;

// n + 2^63.
fn raised(n: i64) -> u64
    ensures { result ≡ raised_of n }
{
    n.cast_unsigned().wrapping_add(COUNTS_FROM)
}

// A whole number n as n + 2^63, a refusal as its number: `count_word` of test_support, of an i64.
pub(crate) fn bits_of_counts(c: Result<i64, Refusal>) -> u64
    ensures { result ≡ counts_word (answered c) }
{
    match c {
        Ok(n) => raised(n),
        Err(why) => u64::from(u32::from(why)),
    }
}
