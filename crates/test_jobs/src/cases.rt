// A case: a text is read into as much memory as is lent, and what the memory then holds is summed.
ghost use Rattle.std.specs.Prelude.{◌≡◌};
ghost use Rattle.refusals.specs.Answer.{answered};
ghost use Rattle.test_jobs.specs.Case.{seen_of, case_in, case_of};

use reader_hex::of_bits;
use records::layout::{NUMBERS_NEEDED, WANTS_NEEDED, WORDS_NEEDED};
use refusals::{Refusal, answer_number};
use test_support::checksum;

// The memory that is there, a little more than reading takes.
const WORDS_ROOM: usize = WORDS_NEEDED + 9;

const NUMBERS_ROOM: usize = NUMBERS_NEEDED + 51;

const WANTS_ROOM: usize = WANTS_NEEDED + 8;

// How many words, numbers and wants are lent.
#[derive(Clone, Copy)]
pub(crate) struct Lent {
    pub(crate) words: usize,
    pub(crate) numbers: usize,
    pub(crate) wants: usize,
}

impl Lent {
    pub(crate) const ALL: Lent = Lent {
        words: WORDS_NEEDED,
        numbers: NUMBERS_NEEDED,
        wants: WANTS_NEEDED,
    };
}

// The two columns of an answer as they are written: a Result would leave them to the printing, of which no contract speaks.
#[derive(Clone, Copy)]
pub(crate) struct Seen {
    // 0, or the number of the refusal
    pub(crate) answer: u32,
    pub(crate) wants: usize,
}

#[derive(Clone, Copy)]
pub(crate) struct Case {
    pub(crate) seen: Seen,
    pub(crate) sum: u64,
}

fn seen_of(read: Result<usize, Refusal>) -> Seen
    ensures { result ≡ seen_of (answered read) }
{
    Seen {
        answer: answer_number(&read),
        wants: read.unwrap_or(0),
    }
}

// As much is lent as is asked for and there is. The three slices are those that `read` takes: no road lies there before it.
fn case_in(
    text: &[u8],
    words: &mut [u16],
    numbers: &mut [f64],
    wants: &mut [u64],
    asked: Lent,
) -> Case
    ensures { result ≡ case_in text.now words.old numbers.old wants.old asked }
{
    let w = asked.words.min(words.len());
    let n = asked.numbers.min(numbers.len());
    let v = asked.wants.min(wants.len());
    let read = reader_calls::read(text, &mut words[..w], &mut numbers[..n], &mut wants[..v]);
    Case {
        seen: seen_of(read),
        sum: checksum(words, numbers, wants),
    }
}

// The memory is full of what no reading leaves, so that a place that is not cleared shows.
pub(crate) fn case_of(text: &[u8], asked: Lent) -> Case
    ensures { result ≡ case_of text.now asked }
{
    let mut words = [0xabcd; WORDS_ROOM];
    let mut numbers = [of_bits(0x4045_abcd_abcd_abcd); NUMBERS_ROOM];
    let mut wants = [0xabcd_abcd_abcd_abcd; WANTS_ROOM];
    case_in(text, &mut words, &mut numbers, &mut wants, asked)
}
