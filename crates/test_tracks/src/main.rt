// Replays a list of calls on tracks from standard input against the crate `tracks_calls`. It writes a line for each call whose answer is
// not the one that the list has, then for each call how many lines made it and how many of these differ. tools/lists makes the list.
#![tactic(auto)]

mod answers;
mod calls;
mod lines;
mod patterns;
mod tally;
mod words;

use std::io;

fn main(rt: HostRuntime) -> io::Result<()> {
    let tally = lines::run(&rt);
    println!(rt; "tangents {}", tally.tangents)?;
    println!(rt; "pose {}", tally.pose)?;
    println!(rt; "project {}", tally.project)?;
    println!(rt; "broken {} lines", tally.broken)
}
