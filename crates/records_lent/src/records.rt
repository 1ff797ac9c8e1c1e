// Records in lent numbers, one after another.
ghost use Rattle.std.specs.Prelude.{◌≡◌, ◌==◌, ◌+◌, ◌*◌, ◌<◌, ℕ, List, Float, length, get_or};
ghost use Rattle.std.specs.Iterator.{YieldsFirst, item_count};
ghost use Rattle.records_lent.specs.Lists.{records_of, span};

use crate::access::{part, word};
use std::marker::{Model, PhantomData};

// What so many numbers stand for.
pub trait Record: Copy {
    ghost from: { List Float → ℕ → Self };

    ghost none: { Self };

    ghost STRIDE: { ℕ };

    const STRIDE: usize;

    // The record of a part that holds its numbers and no others.
    fn from_part(numbers: &[f64]) -> Self
        ensures { result ≡ from numbers.now 0 };

    // What stands for a record where there is none.
    fn none() -> Self
        ensures { result ≡ none };

    ghost stride_positive: { 0 < STRIDE };

    // A record is read from its own numbers alone.
    ghost own_numbers: { (xs : List Float) (at : ℕ) → from (span xs at STRIDE) 0 ≡ from xs at };
}

// The records that a part of the lent numbers holds: the C interface lends flat f64, so a record is found by its stride. What is left over at the end
// is no record.
#[derive(Drop)]
pub struct Records<'a, T: Record> {
    numbers: &'a [f64],
    of: PhantomData<T>,
}

impl<'a, T: Record> Model for Records<'a, T> {
    ghost use Rattle.std.specs.Prelude.{List};
    ghost use Rattle.records_lent.specs.Lists.{records_of};

    ghost Value = { List T };

    ghost view = { λ records. records_of T.from T.STRIDE records.numbers.now };
}

impl<'a, T: Record> Records<'a, T> {
    pub fn new(numbers: &'a [f64]) -> Self
        ensures { result ≡ records_of T.from T.STRIDE numbers.now }
    {
        Records {
            numbers,
            of: PhantomData,
        }
    }

    // Of a table that begins at a base, so many lines from the first on, each a record. The sums saturate, so that any numbers may be asked: so far on there
    // is none. First and count are two parameters, since a road's flat tables have a count alone.
    pub fn of_table(numbers: &'a [f64], base: usize, first: usize, count: usize) -> Self
        ensures { result ≡ records_of T.from T.STRIDE (span numbers.now (base + first * T.STRIDE) (count * T.STRIDE)) }
    {
        let start = base.saturating_add(first.saturating_mul(T::STRIDE));
        Self::new(part(numbers, start, count.saturating_mul(T::STRIDE)))
    }

    // Of a table that begins at a base, the lines that two words at a place say: the first and how many.
    pub fn of_range(words: &[u16], at: usize, numbers: &'a [f64], base: usize) -> Self
        ensures { result ≡ records_of T.from T.STRIDE (span numbers.now (base + get_or words.now at 0 * T.STRIDE) (get_or words.now (at + 1) 0 * T.STRIDE)) }
    {
        let first = word(words, at);
        let count = word(words, at.saturating_add(1));
        Self::of_table(numbers, base, first, count)
    }

    pub fn len(&self) -> usize
        ensures { result ≡ length self.now }
    {
        self.numbers.len() / T::STRIDE
    }

    pub fn is_empty(&self) -> bool
        ensures { result ≡ (length self.now == 0) }
    {
        self.len() == 0
    }

    // The i-th record, none past the last.
    pub fn get(&self, i: usize) -> T
        ensures { result ≡ get_or self.now i T.none }
    {
        if i < self.len() {
            let at = i * T::STRIDE;
            T::from_part(&self.numbers[at..at + T::STRIDE])
        } else {
            T::none()
        }
    }

    // The same records, to go over.
    pub fn iter(&self) -> Self
        ensures { result ≡ self.now }
    {
        Self::new(self.numbers)
    }
}

impl<'a, T: Record> Iterator for Records<'a, T> {
    type Item = T;

    ghost next_gives = { YieldsFirst (λ records. records) };

    ghost remaining = { item_count (λ records. records) };

    fn next(&mut self) -> Option<T> {
        let (record, others) = self.numbers.split_at_checked(T::STRIDE)?;
        self.numbers = others;
        Some(T::from_part(record))
    }
}
