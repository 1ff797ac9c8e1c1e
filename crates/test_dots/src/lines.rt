// Lines of the list, in turn: each puts a word or a number into memory, sets what calls share, or asks.
//
// tools/lists/src/bin/dots/main.rs says what each letter means.
use crate::calls::Asked;
use crate::tally::Tally;
use crate::words::{numbers, words};
use line_samples::SAMPLES_NEEDED;
use reader_hex::{byte_at, of_bits};
use records::layout::{NUMBERS_NEEDED, WORDS_NEEDED};
use std::alloc::{AllocError, Global};
use std::io;
use std::io::Read;
use test_support::put;

#[derive(Drop)]
struct Replay {
    words: [u16; WORDS_NEEDED],
    numbers: [f64; NUMBERS_NEEDED],
    // the slice for samples, and how much of it is lent
    samples: [f64; SAMPLES_NEEDED],
    lending: usize,
    stations: Vec<f64>,
    list: Vec<f64>,
    tally: Tally,
}

impl Replay {
    fn new(alloc: Global) -> Self {
        Replay {
            words: [0; WORDS_NEEDED],
            numbers: [0.0; NUMBERS_NEEDED],
            samples: [0.0; SAMPLES_NEEDED],
            lending: SAMPLES_NEEDED,
            stations: Vec::new(alloc),
            list: Vec::new(alloc),
            tally: Tally::default(),
        }
    }

    // A value put at a place, or the count that is lent; none where the letter, the number of words, a place or a value is unknown.
    fn change(&mut self, letter: u8, row: &[u64]) -> Option<()> {
        match (letter, row) {
            (b'w', [at, word]) => put(&mut self.words, *at, u16::try_from(*word).ok()?),
            (b'n', [at, bits]) => put(&mut self.numbers, *at, of_bits(*bits)),
            (b'f', [at, bits]) => put(&mut self.samples, *at, of_bits(*bits)),
            (b'c', [count]) => {
                self.lending = self.samples.get(..*count as usize)?.len();
                Some(())
            }
            _ => None,
        }
    }

    // One line. Letters are matched here and in `change`, and nowhere else but where a call is named: no enum stands between them and what they do.
    fn step(&mut self, rt: &impl Print, alloc: Global, line: &[u8]) -> Result<(), AllocError> {
        let Some(row) = words(alloc, line)? else {
            self.tally.count(None);
            return Ok(());
        };
        match byte_at(line, 0) {
            b's' => self.stations = numbers(alloc, &row)?,
            b'l' => self.list = numbers(alloc, &row)?,
            letter => {
                if self.change(letter, &row).is_some() {
                    return Ok(());
                }
                let asked = Asked {
                    line,
                    row: &row,
                    words: &self.words,
                    numbers: &self.numbers,
                    stations: &self.stations,
                };
                let lent = self.lending.min(SAMPLES_NEEDED);
                let samples = &mut self.samples[..];
                let verdict = asked.judged(rt, letter, &mut samples[..lent], &mut self.list);
                self.tally.count(verdict);
            }
        }
        Ok(())
    }
}

// Every line of the list.
pub(crate) fn run(rt: &(impl Input + Print), alloc: Global) -> io::Result<Tally> {
    let mut list = Vec::new(alloc);
    rt.reader().read_to_end(&mut list)?;
    let mut replay = Replay::new(alloc);
    for line in list.split_inclusive(|b| *b == b'\n') {
        let line = line.strip_suffix(b"\n").unwrap_or(line);
        replay.step(rt, alloc, line)?;
    }
    Ok(replay.tally)
}
