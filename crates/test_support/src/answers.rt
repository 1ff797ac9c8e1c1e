// An answer of a call as a line of a list writes it.
ghost use Rattle.std.specs.Prelude.{◌≡◌};
ghost use Rattle.refusals.specs.Answer.{answered};
ghost use Rattle.test_support.specs.Answers.{count_word};

use refusals::Refusal;

// What is added to a count, 2^63, so that it is no refusal's number.
pub const COUNTS_FROM: u64 = 0x8000_0000_0000_0000;

// A count as n + 2^63, a refusal as its number. test_vectors adds 2^63 too, to an i64 that may be below 0, and test_tracks 2^31 in 32 bits:
// in a function of all three the caller would name the number, and only the match would be left.
pub fn count_word(answer: Result<usize, Refusal>) -> u64
    ensures { result ≡ count_word (answered answer) }
{
    match answer {
        Ok(n) => (n as u64).wrapping_add(COUNTS_FROM),
        Err(why) => u64::from(u32::from(why)),
    }
}
