// Runs a list of job texts from standard input through the crate `reader_calls`. It writes a line for each: the case's number, the answer
// (0 or the number of the refusal), how many wants, and a checksum of all memory; then how many cases there were. The list and what
// is to be written are made by tools/lists with a second reader.
#![tactic(auto)]

mod cases;
mod steps;

use std::io;

fn main(rt: HostRuntime) -> io::Result<()> {
    steps::run(&rt)
}
