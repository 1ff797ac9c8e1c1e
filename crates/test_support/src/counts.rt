// How many lines asked for a call, and how many of these differ from its answer.
ghost use Rattle.std.specs.Prelude.{◌≡◌, ◌+◌, ◌%◌, ◌^◌};
ghost use Rattle.std.specs.Int.{from_bool};

use std::fmt;

#[derive(Clone, Copy, Default)]
pub struct Counts {
    pub lines: u64,
    pub differ: u64,
}

impl Counts {
    // One line more.
    pub fn count(&mut self, differs: bool)
        ensures lines { self.new.lines ≡ (self.old.lines + 1) % 2 ^ 64 }
        ensures differ { self.new.differ ≡ (self.old.differ + from_bool differs) % 2 ^ 64 }
    {
        self.lines = self.lines.wrapping_add(1);
        self.differ = self.differ.wrapping_add(u64::from(differs));
    }
}

impl fmt::Display for Counts {
    fn fmt<W: fmt::Write>(&self, f: &mut fmt::Formatter<W>) -> fmt::Result {
        write!(f, "{} lines, {} differ", self.lines, self.differ)
    }
}
