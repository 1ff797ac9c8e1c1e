// Lines of the list, in turn: each adds to the text, keeps it, says what is lent, or runs a case.
//
//     t a b   the text gets the sixteen bytes of a and b, the most significant first
//     x k w   the low k bytes of w
//     c i j   the bytes from i up to j of the base
//     b       the text becomes the base, and is empty
//     l w n   the next case lends w words and n numbers
//     r v k   the case numbered k is run, with v wants lent; then the text is empty
use crate::cases::{Lent, case_of};
use program_input::read_full;
use std::{io, mem};
use test_support::{LINE_LENGTH, Line, Text, extend, line_of};

// So many lines are read at a time: a list has no limit, and what is written for a block is written before the next one is read.
const BLOCK_LENGTH: usize = 1024 * LINE_LENGTH;

#[derive(Drop)]
struct Replay {
    text: Text,
    base: Text,
    // what the next case lends, but for the wants, which its own line says
    lent: Lent,
    // how many cases there were, and lines that break the form
    cases: u64,
    broken: u64,
}

impl Replay {
    fn new() -> Self {
        Replay {
            text: Text::new(),
            base: Text::new(),
            lent: Lent::ALL,
            cases: 0,
            broken: 0,
        }
    }

    fn keep(&mut self) {
        mem::swap(&mut self.text, &mut self.base);
        self.text.clear();
    }

    // Runs the case, and writes its number and what was seen. The next case lends all.
    fn run(&mut self, rt: &impl Print, number: u64, wants: usize) -> io::Result<()> {
        let lent = Lent { wants, ..self.lent };
        let case = case_of(self.text.as_slice(), lent);
        let seen = case.seen;
        self.text.clear();
        self.lent = Lent::ALL;
        self.cases = self.cases.wrapping_add(1);
        println!(rt; "{number} {} {} {:016x}", seen.answer, seen.wants, case.sum)
    }

    // A change; false where the letter is unknown. Each letter is matched once, here or where its call is, so no enum of changes stands between it and
    // what it does.
    fn change(&mut self, line: Line) -> bool {
        match line.letter {
            b'b' => self.keep(),
            b'l' => {
                self.lent.words = line.a as usize;
                self.lent.numbers = line.b as usize;
            }
            _ => return extend(&mut self.text, line, self.base.as_slice()),
        }
        true
    }

    fn apply(&mut self, rt: &impl Print, line: Option<Line>) -> io::Result<()> {
        if let Some(Line { letter: b'r', a, b }) = line {
            return self.run(rt, b, a as usize);
        }
        if !line.is_some_and(|line| self.change(line)) {
            self.broken = self.broken.wrapping_add(1);
        }
        Ok(())
    }
}

// Bytes after the last whole line are a line that breaks the form.
// test_support/src/lines.rt says why the list is read and split here.
pub(crate) fn run(rt: &(impl Input + Print)) -> io::Result<()> {
    let mut block = [0; BLOCK_LENGTH];
    let mut replay = Replay::new();
    // A proved loop has to end, and nothing says that the input does: the turns are more than any run takes.
    for _ in 0..u64::MAX {
        let n = read_full(&mut rt.reader(), &mut block);
        for line in block[..n].chunks(LINE_LENGTH) {
            replay.apply(rt, line_of(line))?;
        }
        if n < BLOCK_LENGTH {
            break;
        }
    }
    println!(rt; "{} cases, {} broken lines", replay.cases, replay.broken)
}
