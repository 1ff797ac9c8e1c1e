// A text that is put together as lines say.
ghost use Rattle.std.specs.Prelude.{◌≡◌, [], ◌++◌, is_some, MatchOption};
ghost use Rattle.fixed_text.specs.Texts.{appended};
ghost use Rattle.test_support.specs.declared.texts.TheConstants.{TEXT_ROOM};
ghost use Rattle.test_support.specs.Texts.{part_of, word_bytes, piece_of, is_named};

use crate::lines::Line;

// Some more than the longest job, so that a text may be too long for one.
pub const TEXT_ROOM: usize = 66000;

pub type Text = fixed_text::Text<TEXT_ROOM>;

// The sixteen bytes of a line's numbers, the most significant of each first.
fn bytes_of(line: Line) -> [u8; 16]
    ensures { result ≡ word_bytes line.a ++ word_bytes line.b }
{
    let mut bytes = [0; 16];
    bytes[..8].copy_from_slice(&line.a.to_be_bytes());
    bytes[8..].copy_from_slice(&line.b.to_be_bytes());
    bytes
}

// The bytes from `first` up to `last`, those of them that there are.
fn part(bytes: &[u8], first: u64, last: u64) -> &[u8]
    ensures { result.now ≡ part_of bytes.now first last }
{
    let end = bytes.len().min(last as usize);
    &bytes[end.min(first as usize)..end]
}

// What a line appends: t the sixteen bytes of its numbers, x so many low bytes of the second as the first says, c the bytes of another
// text from the first up to the second. None where the letter is another. The letters are matched here and nowhere else, so no enum of them
// stands between a letter and its piece.
#[tactic(auto, unfolding(crate::specs::Texts::piece_of))]
fn piece_of<'a>(line: Line, own: &'a [u8], base: &'a [u8]) -> Option<&'a [u8]>
    requires { own.now ≡ word_bytes line.a ++ word_bytes line.b }
    ensures known { is_some result ≡ is_named line.letter }
    ensures value { MatchOption result (piece_of line base.now ≡ []) (λ piece. piece.now ≡ piece_of line base.now) }
{
    match line.letter {
        b't' => Some(own),
        b'x' => Some(&own[16 - line.a.min(8) as usize..]),
        b'c' => Some(part(base, line.a, line.b)),
        _ => None,
    }
}

// Appends what a line says, of itself and of another text; false, and nothing is appended, where its letter is none of the three.
pub fn extend(text: &mut Text, line: Line, base: &[u8]) -> bool
    ensures known { result ≡ is_named line.letter }
    ensures text_after { text.new ≡ appended TEXT_ROOM text.old (piece_of line base.now) }
{
    let own = bytes_of(line);
    let piece = piece_of(line, &own, base);
    text.append(piece.unwrap_or(&[]));
    piece.is_some()
}
