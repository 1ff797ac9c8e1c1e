// A job text into lent memory.
// The C interface lends the slices as they are.
ghost use Rattle.std.specs.Prelude.{◌≡◌, length};
ghost use Rattle.refusals.specs.Answer.{answer_number};
ghost use Rattle.reader_calls.specs.Reading.{reading_of, verdict_of, words_held, numbers_held, wants_held};
ghost use Rattle.riftkettle.specs.Exports.{left_by};

use crate::answers::leave;

// Refuses 1, 2, 3, 4, 5. A refusal leaves zeros in the three slices, and the count as it was.
#[unsafe(no_mangle)]
pub extern "C" fn riftkettle_read(
    text: &[u8],
    words: &mut [u16],
    numbers: &mut [f64],
    wants: &mut [u64],
    count: &mut usize,
) -> u32
    ensures value { result ≡ answer_number (verdict_of (reading_of text.now (length words.old) (length numbers.old) (length wants.old))) }
    ensures words_after { words.new ≡ words_held (length words.old) (reading_of text.now (length words.old) (length numbers.old) (length wants.old)) }
    ensures numbers_after { numbers.new ≡ numbers_held (length numbers.old) (reading_of text.now (length words.old) (length numbers.old) (length wants.old)) }
    ensures wants_after { wants.new ≡ wants_held (length wants.old) (reading_of text.now (length words.old) (length numbers.old) (length wants.old)) }
    ensures count_after { count.new ≡ left_by (λ n. n) (verdict_of (reading_of text.now (length words.old) (length numbers.old) (length wants.old))) count.old }
{
    leave(reader_calls::read(text, words, numbers, wants), count)
}
