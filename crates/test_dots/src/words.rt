// The words of a line: after its letter each is a space and sixteen hexadecimal digits in lower case.
ghost use Rattle.std.specs.Prelude.{◌≡◌, ◌+◌, ◌*◌, ◌≤◌, length, IfOk};
ghost use Rattle.std.specs.Option.{option_map};
ghost use Rattle.test_dots.specs.Words.{word_in, words_in, numbers_in};

use reader_hex::{of_bits, sixteen_at};
use std::alloc::{AllocError, Global};

// A space and sixteen digits.
const WORD_LENGTH: usize = 17;

// How many words a line has at most.
const MOST_WORDS: usize = 700;

// The i-th word; none where it is broken. By its place in the line, as in test_tracks/src/words.rt, which says why.
fn word_at(line: &[u8], i: usize) -> Option<u64>
    requires { i * 17 + 18 ≤ length line.now }
    ensures { result ≡ word_in line.now i }
{
    let at = i * WORD_LENGTH + 1;
    if line[at] != b' ' {
        return None;
    }
    sixteen_at(line, at + 1)
}

// A line's words; none where it is not a letter and words, at most MOST_WORDS, or one is broken.
pub(crate) fn words(alloc: Global, line: &[u8]) -> Result<Option<Vec<u64>>, AllocError>
    ensures { IfOk result (λ r. option_map (λ v. v.items) r ≡ words_in line.now) }
{
    let n = line.len() / WORD_LENGTH;
    if !((line.len() % WORD_LENGTH == 1) & (n <= MOST_WORDS)) {
        return Ok(None);
    }
    let mut words = Vec::new(alloc);
    for i in 0..n {
        let Some(word) = word_at(line, i) else {
            return Ok(None);
        };
        words.push(word)?;
    }
    Ok(Some(words))
}

// The f64 of each word.
pub(crate) fn numbers(alloc: Global, row: &[u64]) -> Result<Vec<f64>, AllocError>
    ensures { IfOk result (λ v. v.items ≡ numbers_in row.now) }
{
    row.iter().map(|bits| of_bits(*bits)).collect(alloc)
}
