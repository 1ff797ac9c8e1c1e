// Total reads of a lent slice.
ghost use Rattle.std.specs.Prelude.{◌≡◌, ◌<◌, get_or};
ghost use Rattle.std.specs.Float.{nan};
ghost use Rattle.records_lent.specs.Lists.{span};

// The item at a place, the given one past the end.
fn item_or<T: Copy>(items: &[T], at: usize, past: T) -> T
    ensures { result ≡ get_or items.now at past }
{
    items.get(at).copied().unwrap_or(past)
}

// The number at a place, NaN past the end.
pub fn number(numbers: &[f64], at: usize) -> f64
    ensures { result ≡ get_or numbers.now at nan }
{
    item_or(numbers, at, f64::NAN)
}

// The word at a place as it is lent, 0 past the end.
pub fn raw_word(words: &[u16], at: usize) -> u16
    ensures { result ≡ get_or words.now at 0 }
{
    item_or(words, at, 0)
}

// The word at a place, 0 past the end. It is a usize, since callers calculate places with it and compare it with lengths: of a u16 each would make one. So
// that it came of a u16 is a clause, here and in the functions of counts, where the model's list is of any length.
pub fn word(words: &[u16], at: usize) -> usize
    ensures value { result ≡ get_or words.now at 0 }
    ensures small { result < 65536 }
{
    usize::from(raw_word(words, at))
}

// count numbers from start on, fewer where the slice ends before.
pub fn part(numbers: &[f64], start: usize, count: usize) -> &[f64]
    ensures { result.now ≡ span numbers.now start count }
{
    let rest = numbers.get(start..).unwrap_or(&[]);
    &rest[..count.min(rest.len())]
}

// The i-th of count numbers from start on, NaN past them.
pub fn number_in(numbers: &[f64], start: usize, count: usize, i: usize) -> f64
    ensures { result ≡ get_or (span numbers.now start count) i nan }
{
    number(part(numbers, start, count), i)
}
