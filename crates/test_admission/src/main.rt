// Runs a list of cases from standard input against the calls `admit` and `samples`. It writes a line for each case that differs, then how
// many cases there were and how many differ. tools/lists makes the list.
#![tactic(auto)]

mod calls;
mod lists;

use std::io;

fn main(rt: HostRuntime) -> io::Result<()> {
    lists::run(&rt)
}
