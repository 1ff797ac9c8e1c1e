// What `admit` and `samples` answer, as a line of the list writes it: 0 or n + 2^63, or the number of a refusal.
//
// The calls take the two lent slices and no road: whether one lies there is what is asked.
ghost use Rattle.std.specs.Prelude.{◌≡◌, length};
ghost use Rattle.admission.specs.Admission.{admit_call};
ghost use Rattle.refusals.specs.Answer.{answer_number};
ghost use Rattle.test_admission.specs.Case.{call_of, call_word};

use refusals::answer_number;
use test_support::count_word;

fn admission_answer(words: &[u16], numbers: &[f64]) -> u64
    ensures { result ≡ answer_number (admit_call words.now numbers.now) }
{
    u64::from(answer_number(&admission_calls::admit(words, numbers)))
}

#[derive(Clone, Copy)]
pub(crate) enum Call {
    Admission,
    Samples,
}

impl Call {
    // The call of a letter.
    #[tactic(auto, unfolding(crate::specs::Case::call_of))]
    pub(crate) fn named(letter: u8) -> Option<Call>
        ensures { result ≡ call_of letter }
    {
        match letter {
            b'a' => Some(Call::Admission),
            b's' => Some(Call::Samples),
            _ => None,
        }
    }

    // What it answers.
    pub(crate) fn answer(self, words: &[u16], numbers: &[f64], samples: &mut [f64]) -> u64
        ensures { result ≡ call_word self words.now numbers.now (length samples.old) }
    {
        match self {
            Call::Admission => admission_answer(words, numbers),
            Call::Samples => count_word(line_calls::samples(words, numbers, samples)),
        }
    }
}
