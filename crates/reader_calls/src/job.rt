// A whole job text: rows 1 to 5, in their order. The three slices are handed along one by one. Of a struct of them that is lent, each contract would have to
// say besides that the slices in it are still the ones of before (without that the proof of `read` did not close); one that is handed on whole would be
// made of three new loans at each call.
ghost use Rattle.std.specs.Prelude.{◌≡◌, length};
ghost use Rattle.refusals.specs.Answer.{answered};
ghost use Rattle.reader_calls.specs.Reading.{zeros, zero_numbers, reading_by, reading_of, verdict_of, words_held, numbers_held, wants_held};
ghost use Rattle.reader_calls.specs.Parts.{judged_by, Filled};

use crate::tables::{Taken, tables};
use records::layout::{NUMBERS_NEEDED, WANTS_NEEDED, WORDS_NEEDED};
use refusals::Refusal;

// The most bytes of a text.
pub const TEXT_MOST: usize = 65536;

// Clears all three slices.
#[tactic(auto, unfolding(crate::specs::Reading::zeros, crate::specs::Reading::zero_numbers))]
fn clear(words: &mut [u16], numbers: &mut [f64], wants: &mut [u64])
    ensures words_after { words.new ≡ zeros (length words.old) }
    ensures numbers_after { numbers.new ≡ zero_numbers (length numbers.old) }
    ensures wants_after { wants.new ≡ zeros (length wants.old) }
{
    words.fill(0);
    numbers.fill(0.0);
    wants.fill(0);
}

// What a text that was taken leads to: references and order, then the road that was stored.
fn judged(taken: Taken, words: &[u16], numbers: &[f64]) -> Result<usize, Refusal>
    ensures { answered result ≡ judged_by taken words.now numbers.now }
{
    if !taken.progress.sound {
        return Err(Refusal::Structure);
    }
    admission_calls::admit(words, numbers)?;
    Ok(taken.lines as usize)
}

// Reads a text into slices that hold zeros; after a refusal they may hold anything.
fn fill(
    text: &[u8],
    words: &mut [u16],
    numbers: &mut [f64],
    wants: &mut [u64],
) -> Result<usize, Refusal>
    ensures { Filled (reading_by text.now words.old numbers.old wants.old) result words.new numbers.new wants.new }
{
    let room = (WORDS_NEEDED <= words.len())
        & (NUMBERS_NEEDED <= numbers.len())
        & (WANTS_NEEDED <= wants.len());
    if !room {
        return Err(Refusal::Capacity);
    }
    if TEXT_MOST < text.len() {
        return Err(Refusal::Capacity);
    }
    let taken = tables(text, words, numbers, wants)?;
    judged(taken, words, numbers)
}

// Reads a job text: how many wants it has. The slices hold what was read and zeros everywhere else, or zeros alone after a refusal.
pub fn read(
    text: &[u8],
    words: &mut [u16],
    numbers: &mut [f64],
    wants: &mut [u64],
) -> Result<usize, Refusal>
    ensures result_value { answered result ≡ verdict_of (reading_of text.now (length words.old) (length numbers.old) (length wants.old)) }
    ensures words_after { words.new ≡ words_held (length words.old) (reading_of text.now (length words.old) (length numbers.old) (length wants.old)) }
    ensures numbers_after { numbers.new ≡ numbers_held (length numbers.old) (reading_of text.now (length words.old) (length numbers.old) (length wants.old)) }
    ensures wants_after { wants.new ≡ wants_held (length wants.old) (reading_of text.now (length words.old) (length numbers.old) (length wants.old)) }
{
    clear(words, numbers, wants);
    let answer = fill(text, words, numbers, wants);
    if answer.is_err() {
        clear(words, numbers, wants);
    }
    answer
}
