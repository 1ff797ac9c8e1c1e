// The jobs of the list, one after the other.
//
//     j k n   the job numbered k, whose text is the n bytes that follow the line
//     e       the list ends
use program_input::read_full;
use program_output::OUTPUT_NEEDED;
use std::io;
use test_support::{LINE_LENGTH, Line, TEXT_ROOM, line_of};

// How many jobs there were, and lines that break the form.
#[derive(Drop)]
pub(crate) struct Totals {
    pub(crate) jobs: u64,
    pub(crate) broken: u64,
}

fn next_line(rt: &impl Input) -> Option<Line> {
    let mut bytes = [0; LINE_LENGTH];
    let n = read_full(&mut rt.reader(), &mut bytes);
    line_of(&bytes[..n])
}

fn show(rt: &impl Print, number: u64, text: &[u8]) -> io::Result<()> {
    let mut out = [0; OUTPUT_NEEDED];
    let n = program_output::answer(text, &mut out);
    println!(rt; "job {number}")?;
    rt.write_all(&out[..n])
}

// Reads a job's text and shows what is answered; false where the text is not all there.
fn replayed(rt: &(impl Input + Print), number: u64, size: u64) -> io::Result<bool> {
    if size > TEXT_ROOM as u64 {
        return Ok(false);
    }
    let mut text = [0; TEXT_ROOM];
    let n = read_full(&mut rt.reader(), &mut text[..size as usize]);
    show(rt, number, &text[..n])?;
    Ok(n as u64 == size)
}

// The list ends with its last line, or with one that breaks the form. No enum of j and e: they are matched here alone.
pub(crate) fn run(rt: &(impl Input + Print)) -> io::Result<Totals> {
    // a proved loop has to end, and nothing says that the input does: the turns are more than any run takes
    for jobs in 0..u64::MAX {
        let done = match next_line(rt) {
            Some(Line { letter: b'j', a, b }) => replayed(rt, a, b)?,
            Some(Line { letter: b'e', .. }) => return Ok(Totals { jobs, broken: 0 }),
            _ => false,
        };
        if !done {
            return Ok(Totals { jobs, broken: 1 });
        }
    }
    Ok(Totals {
        jobs: u64::MAX,
        broken: 0,
    })
}
