// Replays a list of calls for dots from standard input against the crates `line_calls` and `dots_calls`. It writes a line for each call
// whose answer is not the one that the list has, then for each call how many lines made it and how many of these differ. tools/lists makes
// the list.
#![tactic(auto)]

mod answers;
mod calls;
mod lines;
mod patterns;
mod tally;
mod words;

use std::io;

fn main(rt: HostRuntime) -> io::Result<()> {
    let tally = lines::run(&rt, rt.alloc())?;
    println!(rt; "samples {}", tally.samples)?;
    println!(rt; "dots {}", tally.dots)?;
    println!(rt; "broken {} lines", tally.broken)
}
