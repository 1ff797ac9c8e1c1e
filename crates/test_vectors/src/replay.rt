// Lines of vectors, answered and counted.
//
// A line is 36 bytes: a letter (r root, n narrow, s sine, c cosine, k counts), a space, the argument's 16 digits, a space, the
// answer's 16 digits, LF. An f32 is its 8 digits after eight zeros. A whole number n is n + 2^63, a refusal its number.
ghost use Rattle.std.specs.Prelude.{◌≡◌};
ghost use Rattle.test_vectors.specs.Vector.{verdict_of};

use crate::functions::Function;
use program_input::read_full;
use reader_hex::of_bits;
use std::io;
use test_support::{Counts, LINE_LENGTH, Line, line_of};

// So many lines are read at a time: a list has no limit, and what differs in a block is written before the next one is read.
const BLOCK_LENGTH: usize = 1024 * LINE_LENGTH;

// Where a whole line is counted. Of a difference, what was answered here.
#[derive(Clone, Copy)]
enum Verdict {
    Agrees(Function),
    Differs(Function, u64),
}

// What is found of a line; none where it breaks the form, or its letter is no function's.
fn judged(line: Option<Line>) -> Option<Verdict>
    ensures { result ≡ verdict_of line }
{
    let line = line?;
    let function = Function::named(line.letter)?;
    let got = function.answer(of_bits(line.a));
    if got == line.b {
        Some(Verdict::Agrees(function))
    } else {
        Some(Verdict::Differs(function, got))
    }
}

// Writes the answer given here, then the line that it differs from.
fn show(rt: &impl Print, line: &[u8], got: u64) -> io::Result<()> {
    print!(rt; "differs, here {got:016x}: ")?;
    rt.write_all(line)
}

#[derive(Drop)]
struct Replay {
    // of each function
    counts: [Counts; Function::COUNT],
    broken: u64,
}

impl Replay {
    fn new() -> Self {
        Replay {
            counts: [Counts::default(); Function::COUNT],
            broken: 0,
        }
    }

    // Counts a line. A difference that cannot be written is counted all the same.
    fn count(&mut self, rt: &impl Print, line: &[u8]) {
        match judged(line_of(line)) {
            None => self.broken = self.broken.wrapping_add(1),
            Some(Verdict::Agrees(function)) => self.counts[function as usize].count(false),
            Some(Verdict::Differs(function, got)) => {
                let _ = show(rt, line, got);
                self.counts[function as usize].count(true);
            }
        }
    }

    // A line for each function, and one for the lines that break the form.
    fn report(&self, rt: &impl Print) -> io::Result<()> {
        for function in Function::ALL {
            println!(rt; "{function} {}", self.counts[function as usize])?;
        }
        println!(rt; "broken {} lines", self.broken)
    }
}

// Bytes after the last whole line are a line that breaks the form.
// test_support/src/lines.rt says why the list is read and split here.
pub(crate) fn run(rt: &(impl Input + Print)) -> io::Result<()> {
    let mut block = [0; BLOCK_LENGTH];
    let mut replay = Replay::new();
    // A proved loop has to end, and nothing says that the input does: the turns are more than any run takes.
    for _ in 0..u64::MAX {
        let n = read_full(&mut rt.reader(), &mut block);
        for line in block[..n].chunks(LINE_LENGTH) {
            replay.count(rt, line);
        }
        if n < BLOCK_LENGTH {
            break;
        }
    }
    replay.report(rt)
}
