// What is remembered from line to line, beside the road's memory.
ghost use Rattle.std.specs.Prelude.{◌≡◌, ◌<◌};
ghost use Rattle.reader_store.specs.Progress.{strip_of, start_progress, unsound_progress, ended_progress};

use records::layout::STRIPS;

// Of each strip, its line in the strip table, counted from 0, if it has one.
pub type Strips = [Option<u16>; STRIPS];

#[derive(Clone, Copy, Debug, PartialEq, Eq)]
pub struct Progress {
    // Whether every reference and every order was right so far. No Option of the rest: after a wrong line the lines that follow are still tested for their
    // form and kept, by the order and the strips so far.
    pub sound: bool,
    // The rank of the parent of the last line of the table at hand.
    pub last: u32,
    pub strips: Strips,
}

// Before the first line of a text.
pub fn start_progress() -> Progress
    ensures { result ≡ start_progress }
{
    Progress {
        sound: true,
        last: 0,
        strips: [None; STRIPS],
    }
}

impl Progress {
    // After a line that is out of its order or under no parent.
    pub fn unsound(self) -> Progress
        ensures { result ≡ unsound_progress self }
    {
        Progress {
            sound: false,
            ..self
        }
    }

    // After a table: the next one's parents begin anew.
    pub(crate) fn ended(self) -> Progress
        ensures { result ≡ ended_progress self }
    {
        Progress { last: 0, ..self }
    }
}

// The number of a strip, from the places of its side and its place in their lists.
pub(crate) fn strip_of(side: u64, place: u64) -> usize
    ensures { (result ≡ strip_of side place) × (result < 4) }
{
    (side % 2 * 2 + place % 2) as usize
}
