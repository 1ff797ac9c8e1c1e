// The calls that lines ask for, each held against the answer that the line has.
//
// The rows are: a, the number; d, a section, a lane, a spacing, the number, and the whole lent list as it is afterwards.
ghost use Rattle.std.specs.Prelude.{◌≡◌, ◌+◌, ◌^◌, ◌<◌, length, slice_index};
ghost use Rattle.line_calls.specs.SampleCall.{samples_list};
ghost use Rattle.test_dots.specs.Case.{id_number, call_of, takes_words, samples_agree, dots_agree, dots_left, verdict_of, samples_told, list_told};

use crate::answers::Answer;
use std::num::f32_from_bits_with_nan;
use test_support::count_word;

// Words of 32 bits, as of a lane and of a spacing, are below this.
const SINGLE_LIMIT: u64 = 0x1_0000_0000;

// A call that a line asks for.
#[derive(Clone, Copy)]
pub(crate) enum Call {
    Samples,
    Dots,
}

// The call that a line makes, and whether its answer is the line's.
#[derive(Clone, Copy)]
pub(crate) struct Verdict {
    pub(crate) call: Call,
    pub(crate) same: bool,
}

// A line, its words, and what its call is on: the road's words and numbers, and the stations.
#[derive(Clone, Copy)]
pub(crate) struct Asked<'a> {
    pub(crate) line: &'a [u8],
    pub(crate) row: &'a [u64],
    pub(crate) words: &'a [u16],
    pub(crate) numbers: &'a [f64],
    pub(crate) stations: &'a [f64],
}

impl Call {
    // The call of a letter.
    #[tactic(auto, unfolding(crate::specs::Case::call_of))]
    fn named(letter: u8) -> Option<Call>
        ensures { result ≡ call_of letter }
    {
        match letter {
            b'a' => Some(Call::Samples),
            b'd' => Some(Call::Dots),
            _ => None,
        }
    }

    // Whether a line has the words of its call: the answer; or a section, a lane, a spacing, the answer and as many as are lent.
    fn takes(self, row: &[u64], list: &[f64]) -> bool
        ensures { result ≡ takes_words self row.now (length list.now) }
    {
        match self {
            Call::Samples => row.len() == 1,
            Call::Dots => {
                row.len() == list.len() + 4 && row[1] < SINGLE_LIMIT && row[2] < SINGLE_LIMIT
            }
        }
    }
}

// The id that a number stands for: k for 2 k, -1 - k for 2 k + 1. So every i32 has one.
fn id(n: u32) -> i32
    ensures { result ≡ id_number n }
{
    let k = (n / 2) as i32;
    if n % 2 == 1 { -1 - k } else { k }
}

impl Asked<'_> {
    #[tactic(auto, unfolding(crate::specs::Case::samples_agree))]
    fn samples(&self, rt: &impl Print, samples: &mut [f64]) -> bool
        requires { length self.now.row.now ≡ 1 }
        ensures value { result ≡ samples_agree self.now.words.now self.now.numbers.now samples.old self.now.row.now }
        ensures samples_after { samples.new ≡ samples_list self.now.words.now self.now.numbers.now samples.old }
    {
        let answer = Answer {
            number: count_word(line_calls::samples(self.words, self.numbers, samples)),
            numbers: &[],
        };
        answer.held_against(rt, self.line, self.row)
    }

    fn dots(&self, rt: &impl Print, samples: &[f64], list: &mut [f64]) -> bool
        requires words { length self.now.row.now ≡ length list.old + 4 }
        requires lane { slice_index self.now.row.now 1 < 2 ^ 32 }
        requires spacing { slice_index self.now.row.now 2 < 2 ^ 32 }
        ensures value { result ≡ dots_agree self.now.words.now self.now.numbers.now samples.now self.now.stations.now list.old self.now.row.now }
        ensures list_after { list.new ≡ dots_left self.now.words.now self.now.numbers.now samples.now self.now.stations.now list.old self.now.row.now }
    {
        let row = self.row;
        let number = count_word(dots_calls::dots(
            self.words,
            self.numbers,
            samples,
            row[0] as usize,
            id(row[1] as u32),
            f32_from_bits_with_nan(row[2] as u32),
            self.stations,
            list,
        ));
        let answer = Answer {
            number,
            numbers: list,
        };
        answer.held_against(rt, self.line, &row[3..])
    }

    // What is found of a whole line; none where its letter is unknown, or its words are not those of the call.
    #[tactic(auto, unfolding(crate::specs::Case::verdict_of, crate::specs::Case::samples_told, crate::specs::Case::list_told))]
    pub(crate) fn judged(
        &self,
        rt: &impl Print,
        letter: u8,
        samples: &mut [f64],
        list: &mut [f64],
    ) -> Option<Verdict>
        ensures value { result ≡ verdict_of (call_of letter) self.now.words.now self.now.numbers.now samples.old self.now.stations.now list.old self.now.row.now }
        ensures samples_after { samples.new ≡ samples_told (call_of letter) self.now.words.now self.now.numbers.now samples.old self.now.row.now }
        ensures list_after { list.new ≡ list_told (call_of letter) self.now.words.now self.now.numbers.now samples.old self.now.stations.now list.old self.now.row.now }
    {
        let call = Call::named(letter)?;
        if !call.takes(self.row, list) {
            return None;
        }
        let same = match call {
            Call::Samples => self.samples(rt, samples),
            Call::Dots => self.dots(rt, samples, list),
        };
        Some(Verdict { call, same })
    }
}
