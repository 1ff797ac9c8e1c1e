// The cells of a line: an f64, a whole number, one of a list's words. A cell is one number: an f64's bit pattern, a whole number with its bias, or a
// word's place in its list; none where it is broken. It is no enum of the three: the schema says what a column holds, and whoever takes a cell takes it by its
// column; of an enum each taker would open one variant, and answer for two that never stand there.
ghost use Rattle.std.specs.Prelude.{◌≡◌, ◌<◌, IfSome};
ghost use Rattle.reader_schema.specs.Schema.{kind_by};
ghost use Rattle.reader_cells.specs.Cells.{natural_at, hex_at, whole_at, listed_at, cell_at};

use crate::names::{Span, name_at};
use reader_hex::{DOUBLE_DIGITS, byte_at, sixteen_at};
use reader_schema::place_of;
use reader_schema::tables::Kind;

// A whole number n is kept as this and n. It has up to four digits, so that the sum is never negative and keeps the numbers' order.
pub const WHOLE_BIAS: u64 = 10000;

const WHOLE_DIGITS: usize = 4;

// The decimal number at a place, up to four digits; a 0 stands alone. None where no digit stands there.
fn natural_at(text: &[u8], at: usize) -> Option<Span<u64>>
    ensures value { result ≡ natural_at text.now at }
    ensures below { IfSome result (λ n. n.value < 10000) }
{
    let first = byte_at(text, at);
    if first == b'0' {
        return Some(Span {
            value: 0,
            next: at + 1,
        });
    }
    if !first.is_ascii_digit() {
        return None;
    }
    let mut value: u64 = 0;
    for n in 0..WHOLE_DIGITS {
        let b = byte_at(text, at + n);
        if !b.is_ascii_digit() {
            return Some(Span {
                value,
                next: at + n,
            });
        }
        value = value * 10 + (b - b'0') as u64;
    }
    Some(Span {
        value,
        next: at + WHOLE_DIGITS,
    })
}

// Sixteen hexadecimal digits.
fn hex_at(text: &[u8], at: usize) -> Option<Span<u64>>
    ensures { result ≡ hex_at text.now at }
{
    let value = sixteen_at(text, at)?;
    Some(Span {
        value,
        next: at + DOUBLE_DIGITS,
    })
}

// A whole number, with its bias.
#[tactic(auto, unfolding(crate::specs::Cells::whole_at))]
fn whole_at(text: &[u8], at: usize) -> Option<Span<u64>>
    ensures { result ≡ whole_at text.now at }
{
    if byte_at(text, at) == b'-' {
        let n = natural_at(text, at + 1)?;
        if n.value == 0 {
            return None;
        }
        return Some(Span {
            value: WHOLE_BIAS - n.value,
            next: n.next,
        });
    }
    let n = natural_at(text, at)?;
    Some(Span {
        value: WHOLE_BIAS + n.value,
        next: n.next,
    })
}

// A word of a list, as its place there.
#[tactic(auto, unfolding(crate::specs::Cells::listed_at, reader_schema::specs::Schema::listed_place))]
fn listed_at(text: &[u8], at: usize, list: usize) -> Option<Span<u64>>
    ensures { result ≡ listed_at text.now at list }
{
    let word = name_at(text, at);
    let place = place_of(list, word.value)?;
    Some(Span {
        value: place as u64,
        next: word.next,
    })
}

// The cell at a place, by what its column holds. What stands after it is the caller's to test.
#[tactic(auto, unfolding(crate::specs::Cells::cell_at))]
pub fn cell_at(text: &[u8], at: usize, kind: Kind) -> Option<Span<u64>>
    ensures { result ≡ cell_at text.now at (kind_by kind) }
{
    match kind {
        Kind::Number => hex_at(text, at),
        Kind::Whole => whole_at(text, at),
        listed => listed_at(text, at, usize::from(listed)),
    }
}

// The cell at a place, by the number of what its column holds: any list's, of words that a column holds or of columns' names.
#[tactic(auto, unfolding(crate::specs::Cells::cell_at))]
pub fn cell_by_number(text: &[u8], at: usize, number: usize) -> Option<Span<u64>>
    ensures { result ≡ cell_at text.now at number }
{
    match Kind::try_from(number) {
        Ok(kind) => cell_at(text, at, kind),
        Err(_) => listed_at(text, at, number),
    }
}
