// What a call answers, as a number and a list of f32: a refusal is its number and zeros.
ghost use Rattle.std.specs.Prelude.{◌≡◌, ◌+◌, length};
ghost use Rattle.refusals.specs.Answer.{answered};
ghost use Rattle.test_tracks.specs.Case.{agrees_of, count_number, pose_numbers, project_numbers};

use crate::patterns::pattern;
use refusals::Refusal;
use std::io;
use tracks::{Projection, TrackPose};

#[derive(Clone, Copy)]
pub(crate) struct Answer<'a> {
    pub(crate) number: u32,
    pub(crate) numbers: &'a [f32],
}

impl Answer<'_> {
    // Whether the row is the number and the patterns of the f32.
    fn agrees(&self, row: &[u32]) -> bool
        requires { length row.now ≡ length self.now.numbers.now + 1 }
        ensures { result ≡ agrees_of self.now.number self.now.numbers.now row.now }
    {
        let Answer { number, numbers } = *self;
        (row[0] == number)
            & numbers
                .iter()
                .zip(&row[1..])
                .all(|(x, word)| pattern(*x) == *word)
    }

    // Writes the answer, then the line that it differs from.
    fn show(&self, rt: &impl Print, line: &[u8]) -> io::Result<()> {
        print!(rt; "differs, here {:08x}", self.number)?;
        for x in self.numbers {
            print!(rt; " {:08x}", pattern(*x))?;
        }
        print!(rt; ": ")?;
        rt.write_all(line)?;
        println!(rt; "")
    }

    // Whether the row is the answer; a difference is shown. One that cannot be written is told to the caller all the same.
    pub(crate) fn held_against(&self, rt: &impl Print, line: &[u8], row: &[u32]) -> bool
        requires { length row.now ≡ length self.now.numbers.now + 1 }
        ensures { result ≡ agrees_of self.now.number self.now.numbers.now row.now }
    {
        let same = self.agrees(row);
        if !same {
            let _ = self.show(rt, line);
        }
        same
    }
}

// What is added to a count, 2^31, so that it is no refusal's number.
const COUNTS_FROM: u32 = 0x8000_0000;

// 2^31 and the number of points, a refusal as its number.
pub(crate) fn tangents_number(answer: Result<usize, Refusal>) -> u32
    ensures { result ≡ count_number (answered answer) }
{
    match answer {
        Ok(n) => (n % COUNTS_FROM as usize) as u32 + COUNTS_FROM,
        Err(why) => u32::from(why),
    }
}

// riftkettle writes a pose and a projection out too: a `From` for both would be a public impl of tracks each, with a clause and edits of its own, in
// place of the one line of fields that each has here. Matches: by `map_or`, tried, the proof would need a law of its own on its two cases, where a match needs no answer.
pub(crate) fn pose_numbers(answer: Result<TrackPose, Refusal>) -> [f32; 6]
    ensures { result ≡ pose_numbers (answered answer) }
{
    match answer {
        Ok(TrackPose { position, heading }) => [
            position.x, position.y, position.z, heading.x, heading.y, heading.z,
        ],
        Err(_) => [0.0; 6],
    }
}

pub(crate) fn project_numbers(answer: Result<Projection, Refusal>) -> [f32; 5]
    ensures { result ≡ project_numbers (answered answer) }
{
    match answer {
        Ok(Projection { s, point, offset }) => [s, point.x, point.y, point.z, offset],
        Err(_) => [0.0; 5],
    }
}
