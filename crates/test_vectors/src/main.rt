// Replays a list of vectors from standard input against the crates `arithmetic`, `arithmetic_sine` and `arithmetic_counts`. It writes a
// line for each vector that differs, then for each function how many lines named it and how many of these differ. tools/lists
// makes the list.
#![tactic(auto)]

mod functions;
mod patterns;
mod replay;

use std::io;

fn main(rt: HostRuntime) -> io::Result<()> {
    replay::run(&rt)
}
