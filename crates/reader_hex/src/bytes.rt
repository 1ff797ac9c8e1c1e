// A byte of a text, and its value as a digit.
ghost use Rattle.std.specs.Prelude.{◌≡◌};
ghost use Rattle.reader_hex.specs.Hex.{byte_at, digit_of};

// The byte at a place; 0, which is no digit, no space and no LF, past the end. No Option: callers ask whether one byte stands there, or one that is at
// most a space, and would open it at each test.
pub fn byte_at(text: &[u8], at: usize) -> u8
    ensures { result ≡ byte_at text.now at }
{
    text.get(at).copied().unwrap_or(0)
}

// What `digit` answers of a byte that is none: no digit has this value.
pub(crate) const NO_DIGIT: u8 = 16;

// The value of a hexadecimal digit in lower case, NO_DIGIT for any other byte. Both ends are tested together, so that no branch of the machine's goes by what
// digits the text has: a match on the two ranges takes 320 µs to read a text of 57,213 bytes, this 95. An `Option<u8>` was tried: the words of
// sixteen digits of as long a text, one after another, took 270 µs in place of 55.
#[tactic(auto, unfolding(crate::specs::Hex::digit_of))]
pub fn digit(b: u8) -> u8
    ensures { result ≡ digit_of b }
{
    if (b'0' <= b) & (b <= b'9') {
        return b - b'0';
    }
    if (b'a' <= b) & (b <= b'f') {
        return b - b'a' + 10;
    }
    NO_DIGIT
}
