// Lines of a table in lent words and numbers, one after another.
ghost use Rattle.std.specs.Prelude.{◌≡◌, ◌+◌, ◌-◌, ◌<◌, ◌^◌, ℕ, List, length, get_or, min};
ghost use Rattle.std.specs.Iterator.{YieldsFirst, item_count};
ghost use Rattle.records_lent.specs.Lists.{tabulate};

use std::marker::{Model, PhantomData};

// What a line stands for. N is how the numbers are lent, `&'a [f64]`: a type, since the check covers no function of a struct with a model that has a bound
// on a lifetime, `Line<'a>`.
pub trait Line<N>: Drop {
    ghost at: { List ℕ → N → ℕ → Self };

    ghost none: { Self };

    // A line by its number, a u32, so that its place fits whatever a caller asks.
    fn at(words: &[u16], numbers: N, line: u32) -> Self
        ensures { result ≡ at words.now numbers line };

    // What stands for a line where there is none.
    fn none() -> Self
        ensures { result ≡ none };
}

// So many lines from a first on, for callers that go over them: where they begin is found once, and not for each.
#[derive(Drop)]
pub struct Lines<'a, N: Copy, T: Line<N>> {
    words: &'a [u16],
    numbers: N,
    first: u32,
    end: u32,
    of: PhantomData<T>,
}

impl<'a, N: Copy, T: Line<N>> Model for Lines<'a, N, T> {
    ghost use Rattle.std.specs.Prelude.{ℕ, ◌+◌, ◌-◌, ◌<◌, ◌≤◌, ◌^◌, List};
    ghost use Rattle.records_lent.specs.Lists.{tabulate};

    ghost Value = { List T };

    ghost view = { λ lines. tabulate (λ (k : ℕ). T.at lines.words.now lines.numbers (lines.first + k)) (lines.end - lines.first) };

    ghost invariant = { λ lines. (lines.first ≤ lines.end) × (lines.end < lines.first + 65536) × (lines.end < 2 ^ 32) };
}

impl<'a, N: Copy, T: Line<N>> Lines<'a, N, T> {
    // They are fewer where their end would be no number in 32 bits: no table has so many.
    pub fn new(words: &'a [u16], numbers: N, first: u32, count: u16) -> Self
        ensures lines { result ≡ tabulate (λ (k : ℕ). T.at words.now numbers (first + k)) (min count (2 ^ 32 - 1 - first)) }
        ensures whole { first + count < 2 ^ 32 → result ≡ tabulate (λ (k : ℕ). T.at words.now numbers (first + k)) count }
    {
        Lines {
            words,
            numbers,
            first,
            end: first.saturating_add(u32::from(count)),
            of: PhantomData,
        }
    }

    pub fn len(&self) -> usize
        ensures value { result ≡ length self.now }
        ensures small { result < 65536 }
    {
        (self.end - self.first) as usize
    }

    // The k-th line, none past the last.
    pub fn get(&self, k: usize) -> T
        ensures { result ≡ get_or self.now k T.none }
    {
        if k < self.len() {
            T::at(self.words, self.numbers, self.first + k as u32)
        } else {
            T::none()
        }
    }

    // The same lines, to go over.
    pub fn iter(&self) -> Self
        ensures { result ≡ self.now }
    {
        Lines {
            words: self.words,
            numbers: self.numbers,
            first: self.first,
            end: self.end,
            of: PhantomData,
        }
    }
}

impl<'a, N: Copy, T: Line<N>> Iterator for Lines<'a, N, T> {
    type Item = T;

    ghost next_gives = { YieldsFirst (λ lines. lines) };

    ghost remaining = { item_count (λ lines. lines) };

    fn next(&mut self) -> Option<T> {
        if self.first == self.end {
            return None;
        }
        let line = T::at(self.words, self.numbers, self.first);
        self.first += 1;
        Some(line)
    }
}
