// Asks a list of questions from standard input of the crates that work on roads and writes each answer's numbers on a line. The
// file stdout holds what the published Rust answers. tools/lists makes both.
#![tactic(auto)]

mod answers;
mod calls;
mod lines;
mod patterns;

use std::io;

fn main(rt: HostRuntime) -> io::Result<()> {
    lines::run(&rt)
}
