// What a call answers, as a number and a list of f64, held against the words of a line.
ghost use Rattle.std.specs.Prelude.{◌≡◌, ◌+◌, length};
ghost use Rattle.test_dots.specs.Case.{agrees_of};

use crate::patterns::pattern;
use std::io;

#[derive(Clone, Copy)]
pub(crate) struct Answer<'a> {
    pub(crate) number: u64,
    pub(crate) numbers: &'a [f64],
}

impl Answer<'_> {
    // Whether the row is the number and the patterns of the list.
    fn agrees(&self, row: &[u64]) -> bool
        requires { length row.now ≡ length self.now.numbers.now + 1 }
        ensures { result ≡ agrees_of self.now.number self.now.numbers.now row.now }
    {
        let Answer { number, numbers } = *self;
        (number == row[0])
            & numbers
                .iter()
                .zip(&row[1..])
                .all(|(x, word)| pattern(*x) == *word)
    }

    // Writes the answer, then the line that it differs from.
    fn show(&self, rt: &impl Print, line: &[u8]) -> io::Result<()> {
        print!(rt; "differs, here {:016x}", self.number)?;
        for x in self.numbers {
            print!(rt; " {:016x}", pattern(*x))?;
        }
        print!(rt; ": ")?;
        rt.write_all(line)?;
        println!(rt; "")
    }

    // Whether the row is the answer; a difference is shown. One that cannot be written is told to the caller all the same.
    pub(crate) fn held_against(&self, rt: &impl Print, line: &[u8], row: &[u64]) -> bool
        requires { length row.now ≡ length self.now.numbers.now + 1 }
        ensures { result ≡ agrees_of self.now.number self.now.numbers.now row.now }
    {
        let same = self.agrees(row);
        if !same {
            let _ = self.show(rt, line);
        }
        same
    }
}
