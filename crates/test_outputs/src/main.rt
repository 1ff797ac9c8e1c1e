// Runs a list of job texts from standard input through the crate `program_output`, and writes for each a line with its number and then
// the whole output; at the end how many jobs there were. The list and what is to be written are made by tools/lists, where a second
// program answers the jobs.
#![tactic(auto)]

mod jobs;

use std::io;

fn main(rt: HostRuntime) -> io::Result<()> {
    let totals = jobs::run(&rt)?;
    println!(rt; "{} jobs, {} broken lines", totals.jobs, totals.broken)
}
