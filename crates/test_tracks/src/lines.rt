// Lines of the list, in turn: t sets the track, l the list that is lent for tangents, any other asks.
//
// tools/lists/src/bin/tracks/main.rs says what each letter means.
ghost use Rattle.std.specs.Prelude.{◌≡◌, length};

use crate::calls::Asked;
use crate::tally::Tally;
use crate::words::{MOST_WORDS, Numbers, words};
use program_input::read_full;
use reader_hex::byte_at;

// How many bytes of a list are read; what a longer one has past them is not.
const LIST_ROOM: usize = 600_000;

// A function, whose clause says the length alone: a proof that knows the zeros too goes through each of them.
fn list_space() -> [u8; LIST_ROOM]
    ensures { 600000 ≡ length result }
{
    [0; LIST_ROOM]
}

#[derive(Drop)]
struct Held {
    track: Numbers,
    list: Numbers,
}

// One line. No enum stands between t and l and what they do: they are matched here alone, and any other letter goes on as it is.
fn step(
    rt: &impl Print,
    line: &[u8],
    row: &mut [u32; MOST_WORDS],
    held: &mut Held,
    tally: &mut Tally,
) {
    let Some(row) = words(line, row) else {
        tally.count(None);
        return;
    };
    match byte_at(line, 0) {
        b't' => held.track.set(row),
        b'l' => held.list.set(row),
        letter => {
            let asked = Asked {
                line,
                row,
                track: held.track.as_slice(),
            };
            tally.count(asked.judged(rt, letter, held.list.as_mut_slice()));
        }
    }
}

pub(crate) fn run(rt: &(impl Input + Print)) -> Tally {
    let mut list = list_space();
    let n = read_full(&mut rt.reader(), &mut list);
    let mut row = [0; MOST_WORDS];
    let mut held = Held {
        track: Numbers::new(),
        list: Numbers::new(),
    };
    let mut tally = Tally::default();
    for line in list[..n].split_inclusive(|b| *b == b'\n') {
        let line = line.strip_suffix(b"\n").unwrap_or(line);
        step(rt, line, &mut row, &mut held, &mut tally);
    }
    tally
}
