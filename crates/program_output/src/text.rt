// The text that is written, in memory of its own: digits and numbers are put behind what stands there. The contract of `write!` says nothing
// where it fails, and no line that fits may be lost, so it is not used here.
ghost use Rattle.std.specs.Prelude.{◌≡◌, ◌+◌, ◌≤◌, ◌<◌, [], ◌∷◌, ◌++◌, length};
ghost use Rattle.reader_hex.specs.declared.digits.TheConstants.{DOUBLE_DIGITS};
ghost use Rattle.reader_hex.specs.Digits.{glyph_of, hex_of};
ghost use Rattle.refusals.specs.Refusal.{number_of};
ghost use Rattle.program_output.specs.declared.text.TheConstants.{OUTPUT_NEEDED, NUMBER_LENGTH};
ghost use Rattle.program_output.specs.Lines.{number_line};

use reader_hex::{DOUBLE_DIGITS, SINGLE_DIGITS};
use records::layout::{WANT_STRIDE, WANTS_NEEDED};
use refusals::Refusal;

// The line of the names, `s t x y z`.
const NAMES_LENGTH: usize = 10;

// The number of a refusal, of two digits at most, and the line's end.
pub(crate) const NUMBER_LENGTH: usize = 3;

// x, y and z, a byte behind each.
pub(crate) const POINT_LENGTH: usize = 3 * (SINGLE_DIGITS + 1);

// The longest line of a want: s and t, a byte behind each, then its point.
pub(crate) const WANT_LENGTH: usize = 2 * (DOUBLE_DIGITS + 1) + POINT_LENGTH;

// The most bytes that are written: the names, and a line for each want.
pub const OUTPUT_NEEDED: usize = NAMES_LENGTH + WANT_LENGTH * (WANTS_NEEDED / WANT_STRIDE);

pub(crate) type Text = fixed_text::Text<OUTPUT_NEEDED>;

// What is put behind a text needs room there, each its own number of bytes, so a `requires` says it and no type. `Text::append` asks for none and leaves
// off what does not fit; by it each contract would say the text cut at the room, of which the definitions of the output know nothing.

// The byte of a hexadecimal digit.
fn glyph(d: u8) -> u8
    requires { d < 16 }
    ensures { result ≡ glyph_of d }
{
    if d < 10 { b'0' + d } else { b'a' + (d - 10) }
}

// The last hexadecimal digits of a number, as many as are asked for.
fn push_hex(text: &mut Text, n: u64, digits: usize)
    requires room { length text.old + digits ≤ OUTPUT_NEEDED }
    requires few { digits ≤ DOUBLE_DIGITS }
    ensures { text.new ≡ text.old ++ hex_of digits n }
{
    for place in (0..digits).rev() {
        text.push(glyph(((n >> (4 * place)) % 16) as u8));
    }
}

// The digits, and a byte behind them.
pub(crate) fn push_word(text: &mut Text, n: u64, digits: usize, end: u8)
    requires room { length text.old + digits + 1 ≤ OUTPUT_NEEDED }
    requires few { digits ≤ DOUBLE_DIGITS }
    ensures { text.new ≡ text.old ++ (hex_of digits n ++ end ∷ []) }
{
    push_hex(text, n, digits);
    text.push(end);
}

// The number of a refusal, and the line's end.
pub(crate) fn push_number(text: &mut Text, r: Refusal)
    requires { length text.old + NUMBER_LENGTH ≤ OUTPUT_NEEDED }
    ensures { text.new ≡ text.old ++ number_line (number_of r) }
{
    let n = u32::from(r) as u8;
    if 10 <= n {
        text.push(b'0' + n / 10);
    }
    text.push(b'0' + n % 10);
    text.push(b'\n');
}
