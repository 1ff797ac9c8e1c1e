// The words of a line: after its letter each is a space and eight hexadecimal digits in lower case.
ghost use Rattle.std.specs.Prelude.{◌≡◌, ◌+◌, ◌*◌, ◌≤◌, [], length, IfSome};
ghost use Rattle.std.specs.Option.{option_map};
ghost use Rattle.test_tracks.specs.Words.{word_in, words_in, numbers_in};

use reader_hex::eight_at;
use std::marker::Model;
use std::num::f32_from_bits_with_nan;

// A space and eight digits.
const WORD_LENGTH: usize = 9;

// How many words a line has at most.
pub(crate) const MOST_WORDS: usize = 1600;

// The i-th word; none where it is broken. By its place in the line, as the definition says it, and not of a chunk of nine bytes: a chunk's word
// would need a definition of its own, and a law that the two agree.
#[tactic(auto, using(crate::proofs::WordSteps::eight_fit))]
fn word_at(line: &[u8], i: usize) -> Option<u32>
    requires { i * 9 + 10 ≤ length line.now }
    ensures { result ≡ word_in line.now i }
{
    let at = i * WORD_LENGTH + 1;
    if line[at] != b' ' {
        return None;
    }
    let bits = eight_at(line, at + 1)?;
    Some(bits as u32)
}

// A line's words, put into the row; none where it is not a letter and words, at most MOST_WORDS, or one is broken.
pub(crate) fn words<'a>(line: &[u8], row: &'a mut [u32; MOST_WORDS]) -> Option<&'a [u32]>
    ensures value { option_map (λ s. s.now) result ≡ words_in line.now }
    ensures bound { IfSome result (λ s. length s.now ≤ 1600) }
{
    let n = line.len() / WORD_LENGTH;
    if !((line.len() % WORD_LENGTH == 1) & (n <= MOST_WORDS)) {
        return None;
    }
    for i in 0..n {
        row[i] = word_at(line, i)?;
    }
    Some(&row[..n])
}

// The f32 of a line's words, in memory of their own for as many as a line has.
#[derive(Drop)]
pub(crate) struct Numbers {
    room: [f32; MOST_WORDS],
    count: usize,
}

impl Model for Numbers {
    ghost use Rattle.std.specs.Prelude.{◌≤◌, List, Float, take};

    ghost Value = { List Float };

    ghost view = { λ numbers. take numbers.count numbers.room };

    ghost invariant = { λ numbers. numbers.count ≤ 1600 };
}

impl Numbers {
    pub(crate) fn new() -> Self
        ensures { result ≡ [] }
    {
        Numbers {
            room: [0.0; MOST_WORDS],
            count: 0,
        }
    }

    pub(crate) fn as_slice(&self) -> &[f32]
        ensures { result.now ≡ self.now }
    {
        &self.room[..self.count]
    }

    pub(crate) fn as_mut_slice(&mut self) -> &mut [f32]
        ensures { result.now ≡ self.old }
    {
        &mut self.room[..self.count]
    }

    // By index: once a loop over `iter_mut` is over, a proof knows how long the memory is and not what it holds.
    pub(crate) fn set(&mut self, row: &[u32])
        requires { length row.now ≤ 1600 }
        ensures { self.new ≡ numbers_in row.now }
    {
        for (i, bits) in row.iter().enumerate() {
            self.room[i] = f32_from_bits_with_nan(*bits);
        }
        self.count = row.len();
    }
}
