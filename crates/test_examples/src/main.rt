// Runs the compiled `punch_hole`, `fallocate` and `clone_range` on the worked examples of document 01 and on further cases, and prints
// each answer with the lines of its plan.
#![tactic(auto)]

mod clones;
mod fallocates;
mod lent;
mod print;
mod punches;

use std::io;

fn all(rt: &impl Print) -> io::Result<()> {
    punches::all(rt)?;
    fallocates::all(rt)?;
    clones::all(rt)
}

// What is printed is compared, so a write that fails is told by what is missing, and by no status.
fn main(rt: HostRuntime) {
    let _ = all(&rt);
}
