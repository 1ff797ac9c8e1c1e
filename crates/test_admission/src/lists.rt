// Lines of the list, in turn: each changes the road or what is lent of it, or asks.
//
// tools/lists/src/bin/admission/main.rs says what each letter means.
ghost use Rattle.std.specs.Prelude.{◌≡◌, length};

use crate::calls::Call;
use line_samples::{SAMPLE_STRIDE, SAMPLES_NEEDED};
use program_input::read_full;
use reader_hex::of_bits;
use records::layout::{NUMBERS_NEEDED, WORDS_NEEDED};
use std::io;
use test_support::{Counts, LINE_LENGTH, Line, line_of, put};

// What is lent may be a little more than a road needs.
const WORDS_ROOM: usize = WORDS_NEEDED + 3;

const NUMBERS_ROOM: usize = NUMBERS_NEEDED + 3;

const SAMPLES_ROOM: usize = SAMPLES_NEEDED + SAMPLE_STRIDE;

// No whole number of lines, so that a list which is too long shows a broken line.
const LIST_ROOM: usize = 400_000;

// A function, whose clause says the length alone: a proof that knows the zeros too goes through each of them.
fn list_space() -> [u8; LIST_ROOM]
    ensures { 400000 ≡ length result }
{
    [0; LIST_ROOM]
}

#[derive(Clone, Copy)]
struct Road {
    words: [u16; WORDS_ROOM],
    numbers: [f64; NUMBERS_ROOM],
}

// How many words, numbers and numbers for samples are lent.
#[derive(Clone, Copy)]
struct Lent {
    words: usize,
    numbers: usize,
    samples: usize,
}

#[derive(Drop)]
struct Replay {
    // the road that cases change, and the base that it is again after each
    road: Road,
    base: Road,
    lent: Lent,
    counts: Counts,
    broken: u64,
}

impl Lent {
    const ALL: Lent = Lent {
        words: WORDS_NEEDED,
        numbers: NUMBERS_NEEDED,
        samples: SAMPLES_ROOM,
    };
}

impl Road {
    const EMPTY: Road = Road {
        words: [0; WORDS_ROOM],
        numbers: [0.0; NUMBERS_ROOM],
    };
}

// Writes the answer given here, then the line that it differs from.
fn show(rt: &impl Print, line: Line, got: u64) -> io::Result<()> {
    let letter = [line.letter];
    print!(rt; "differs, here {got:016x}: ")?;
    rt.write_all(&letter)?;
    println!(rt; " {:016x} {:016x}", line.a, line.b)
}

impl Replay {
    fn new() -> Self {
        Replay {
            road: Road::EMPTY,
            base: Road::EMPTY,
            lent: Lent::ALL,
            counts: Counts::default(),
            broken: 0,
        }
    }

    // What a call answers, with as much of each slice lent as is asked for and there is.
    fn asked(&self, call: Call) -> u64 {
        let mut samples = [0.0; SAMPLES_ROOM];
        let lent = self.lent;
        call.answer(
            &self.road.words[..lent.words.min(WORDS_ROOM)],
            &self.road.numbers[..lent.numbers.min(NUMBERS_ROOM)],
            &mut samples[..lent.samples.min(SAMPLES_ROOM)],
        )
    }

    // A case. The next one begins with the base, and lends all.
    fn run(&mut self, rt: &impl Print, call: Call, line: Line) -> io::Result<()> {
        let got = self.asked(call);
        self.road = self.base;
        self.lent = Lent::ALL;
        let differs = got != line.b;
        self.counts.count(differs);
        if differs {
            show(rt, line, got)?;
        }
        Ok(())
    }

    // A change; none where the letter, a place or a value is unknown. A letter is matched here and nowhere else, so no enum of changes
    // stands between it and what it does.
    fn change(&mut self, line: Line) -> Option<()> {
        match line.letter {
            b'w' => put(&mut self.road.words, line.a, u16::try_from(line.b).ok()?)?,
            b'n' => put(&mut self.road.numbers, line.a, of_bits(line.b))?,
            b'l' => {
                self.lent.words = line.a as usize;
                self.lent.numbers = line.b as usize;
            }
            b'm' => self.lent.samples = line.a as usize,
            b'b' => self.base = self.road,
            _ => return None,
        }
        Some(())
    }

    fn apply(&mut self, rt: &impl Print, line: Option<Line>) -> io::Result<()> {
        if let Some(line) = line
            && let Some(call) = Call::named(line.letter)
        {
            return self.run(rt, call, line);
        }
        if line.and_then(|line| self.change(line)).is_none() {
            self.broken = self.broken.wrapping_add(1);
        }
        Ok(())
    }
}

// Bytes after the last whole line are a line that breaks the form.
// test_support/src/lines.rt says why the list is read and split here.
pub(crate) fn run(rt: &(impl Input + Print)) -> io::Result<()> {
    let mut list = list_space();
    let n = read_full(&mut rt.reader(), &mut list);
    let mut replay = Replay::new();
    for line in list[..n].chunks(LINE_LENGTH) {
        replay.apply(rt, line_of(line))?;
    }
    println!(rt;
        "{} cases, {} differ, {} broken lines",
        replay.counts.lines, replay.counts.differ, replay.broken
    )
}
