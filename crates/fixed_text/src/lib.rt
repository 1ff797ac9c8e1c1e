// Bytes that are put together piece by piece, in memory of a fixed size of their own.
#![tactic(auto)]

ghost use Rattle.std.specs.Prelude.{◌≡◌, ◌≤◌, ◌+◌, [], ◌∷◌, ◌++◌, length};
ghost use Rattle.fixed_text.specs.Texts.{appended};

use std::marker::Model;

// At most ROOM bytes; what does not fit is left off. No `ArrayVec` of the kit's: the project uses no library beside std (tools/layers.awk).
#[derive(Drop)]
pub struct Text<const ROOM: usize> {
    bytes: [u8; ROOM],
    count: usize,
}

// Clauses see the bytes that stand there.
impl<const ROOM: usize> Model for Text<ROOM> {
    ghost use Rattle.std.specs.Prelude.{◌≤◌, ℕ, List, take};

    ghost Value = { List ℕ };

    ghost view = { λ t. take t.count t.bytes };

    ghost invariant = { λ t. t.count ≤ ROOM };
}

impl<const ROOM: usize> Text<ROOM> {
    pub fn new() -> Self
        ensures { result ≡ [] }
    {
        Text {
            bytes: [0; ROOM],
            count: 0,
        }
    }

    pub fn as_slice(&self) -> &[u8]
        ensures { result.now ≡ self.now }
    {
        &self.bytes[..self.count]
    }

    pub fn clear(&mut self)
        ensures { self.new ≡ [] }
    {
        self.count = 0;
    }

    pub fn push(&mut self, byte: u8)
        ensures value { self.new ≡ appended ROOM self.old (byte ∷ []) }
        ensures fits { length self.old + 1 ≤ ROOM → self.new ≡ self.old ++ byte ∷ [] }
    {
        self.append(&[byte]);
    }

    pub fn append(&mut self, piece: &[u8])
        ensures value { self.new ≡ appended ROOM self.old piece.now }
        ensures fits { length self.old + length piece.now ≤ ROOM → self.new ≡ self.old ++ piece.now }
    {
        let n = piece.len().min(ROOM - self.count);
        let end = self.count + n;
        let bytes = &mut self.bytes[..];
        bytes[self.count..end].copy_from_slice(&piece[..n]);
        self.count = end;
    }
}
