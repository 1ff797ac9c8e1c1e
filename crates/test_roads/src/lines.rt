// Lines of the list, in turn: each puts a word or a number into memory, sets what calls share, or asks.
//
// tools/lists/src/bin/roads/main.rs says what each letter means.
ghost use Rattle.std.specs.Prelude.{◌≡◌, length};

use crate::answers::{Fill, Question, lent_number};
use crate::calls::Call;
use crate::patterns::pattern;
use line_samples::SAMPLES_NEEDED;
use program_input::read_full;
use reader_hex::of_bits;
use records::layout::{NUMBERS_NEEDED, WORDS_NEEDED};
use std::io;
use test_support::{LINE_LENGTH, Line, line_of, put};

// Room for 18,000 lines; what a longer list has past them is not read.
const LIST_ROOM: usize = 648_000;

// A function, whose clause says the length alone: a proof that knows the zeros too goes through each of them.
fn list_space() -> [u8; LIST_ROOM]
    ensures { 648000 ≡ length result }
{
    [0; LIST_ROOM]
}

#[derive(Drop)]
struct Replay {
    words: [u16; WORDS_NEEDED],
    numbers: [f64; NUMBERS_NEEDED],
    // the slice that calls write into, and that is lent as samples
    lent: [f64; SAMPLES_NEEDED],
    // what the calls share: the third argument, and how much of the slice is lent
    with: u64,
    samples: usize,
}

fn show_number(rt: &impl Print, x: f64) -> io::Result<()> {
    print!(rt; "{:016x} ", pattern(x))
}

fn show_row(rt: &impl Print, row: &[f64]) -> io::Result<()> {
    for x in row {
        show_number(rt, *x)?;
    }
    println!(rt; "")
}

impl Replay {
    fn new() -> Self {
        Replay {
            words: [0; WORDS_NEEDED],
            numbers: [0.0; NUMBERS_NEEDED],
            lent: [0.0; SAMPLES_NEEDED],
            with: 0,
            samples: SAMPLES_NEEDED,
        }
    }

    fn show_answer(&self, rt: &impl Print, question: Question, line: Line) -> io::Result<()> {
        let row = question.row(line, &self.words, &self.numbers, &self.lent);
        show_row(rt, &row[..question.count()])
    }

    // The slice's numbers from a place on, as many as the line asks for; no `show_row`, since past the slice's end they are NaNs.
    fn show_lent(&self, rt: &impl Print, from: u64, count: u64) -> io::Result<()> {
        for part in 0..count {
            show_number(rt, lent_number(&self.lent, from, part))?;
        }
        println!(rt; "")
    }

    // How many samples or lanes were written, and the slice's first numbers.
    fn show_filled(&mut self, rt: &impl Print, fill: Fill, line: Line) -> io::Result<()> {
        let filled = fill.write(line.a, &self.words, &self.numbers, &mut self.lent);
        print!(rt; "{filled:016x} ")?;
        self.show_lent(rt, 0, line.b)
    }

    fn show_call(&self, rt: &impl Print, call: Call, line: Line) -> io::Result<()> {
        let samples = records_lent::part(&self.lent, 0, self.samples);
        let row = call.row(line, self.with, &self.words, &self.numbers, samples);
        show_row(rt, &row[..call.count()])
    }

    // A change; none where the letter, a place or a value is unknown. No enum of changes stands between a letter and what it does: each is matched once.
    fn change(&mut self, line: Line) -> Option<()> {
        match line.letter {
            b'w' => put(&mut self.words, line.a, u16::try_from(line.b).ok()?)?,
            b'n' => put(&mut self.numbers, line.a, of_bits(line.b))?,
            b'f' => put(&mut self.lent, line.a, of_bits(line.b))?,
            b'c' => {
                self.with = line.a;
                self.samples = line.b as usize;
            }
            _ => return None,
        }
        Some(())
    }

    // A question, the slice's numbers (some must be asked for) or a change; false where it is unknown. The letter of the slice's numbers is tested as
    // it is: an enum of it would have one case.
    fn apply(&mut self, rt: &impl Print, line: Line) -> io::Result<bool> {
        if let Some(question) = Question::named(line.letter) {
            self.show_answer(rt, question, line)?;
            return Ok(true);
        }
        if let Some(fill) = Fill::named(line.letter) {
            self.show_filled(rt, fill, line)?;
            return Ok(true);
        }
        if let Some(call) = Call::named(line.letter) {
            self.show_call(rt, call, line)?;
            return Ok(true);
        }
        if (line.letter == b'e') & (line.b != 0) {
            self.show_lent(rt, line.a, line.b)?;
            return Ok(true);
        }
        Ok(self.change(line).is_some())
    }
}

// Every whole line of the list.
// test_support/src/lines.rt says why the list is read and split here.
pub(crate) fn run(rt: &(impl Input + Print)) -> io::Result<()> {
    let mut list = list_space();
    let n = read_full(&mut rt.reader(), &mut list);
    let mut replay = Replay::new();
    for bytes in list[..n].chunks_exact(LINE_LENGTH) {
        let known = match line_of(bytes) {
            Some(line) => replay.apply(rt, line)?,
            None => false,
        };
        if !known {
            println!(rt; "broken")?;
        }
    }
    Ok(())
}
