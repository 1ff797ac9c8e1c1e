// A word of the text as one number.
ghost use Rattle.std.specs.Prelude.{◌≡◌};
ghost use Rattle.reader_cells.specs.Cells.{name_span};

use reader_hex::byte_at;

// What was read, and the place after it.
#[derive(Clone, Copy, Debug, PartialEq, Eq)]
pub struct Span<T> {
    pub value: T,
    pub next: usize,
}

// The most bytes of a word.
const WORD_MOST: usize = 8;

// The word at a place: its bytes up to one that is at most a space, or the end, at most eight. What stands after it is the caller's to test.
// The loop is that of a whole number's digits with another base, length and end. One function for both is no plainer: it would take a byte's value as a
// closure, and require that each value is below the base, that no byte past the end has one and that the base to that length fits 64 bits.
pub fn name_at(text: &[u8], at: usize) -> Span<u64>
    ensures { result ≡ name_span text.now at }
{
    let mut value: u64 = 0;
    for n in 0..WORD_MOST {
        let b = byte_at(text, at + n);
        if b <= b' ' {
            return Span {
                value,
                next: at + n,
            };
        }
        value = value * 256 + b as u64;
    }
    Span {
        value,
        next: at + WORD_MOST,
    }
}
