// Broken trees and fields. Each link rule of the documents is broken alone: every call must answer 1, with nothing else, and hand the tree back
// as it got it; a tree next to it that breaks nothing must be served. A line a rule, in their order. Then fields, sound and broken, are
// edited where they are, by lending them, and by value: the two are compared in number and in every byte, and with what the rules for one field
// ask. A line an edit.
#![tactic(auto)]

mod asking;
mod good;
mod lending;
mod rows;
mod samples;

use std::io;

fn main(rt: HostRuntime) -> io::Result<()> {
    let rt = &rt;
    rows::counts(rt)?;
    rows::reach(rt)?;
    rows::links(rt)?;
    rows::free(rt)?;
    rows::states(rt)?;
    rows::stated(rt)?;
    rows::fields(rt)?;
    let kept = samples::kept(rt)?;
    let broken = samples::broken(rt)?;
    if kept & broken {
        println!(rt; "every edit alike in both forms, and as the rules ask")
    } else {
        println!(rt; "SOME EDIT IS WRONG")
    }
}
