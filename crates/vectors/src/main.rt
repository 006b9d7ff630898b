// Published vectors, run through the proved code: what comes out is written, a line a vector. tests/vectors/expected.py has the same
// lines by other means.
#![tactic(auto)]

mod breaks;
mod characters;
mod edits;
mod lines;
mod readings;
mod shares;
mod show;
mod sums;

use std::io;

fn main(rt: HostRuntime) -> io::Result<()> {
    characters::run(&rt)?;
    sums::run(&rt)?;
    edits::run(&rt)?;
    readings::run(&rt)?;
    breaks::run(&rt)?;
    shares::run(&rt)
}
