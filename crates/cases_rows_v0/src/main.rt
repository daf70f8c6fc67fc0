// Rows of the earlier format through the code: sized, encoded, and decoded alone and in a block, with every refusal that they can meet. What should be printed stands in the
// file `stdout` alone.
#![tactic(auto)]

mod reading;
mod writing;

use std::io;

fn main(rt: HostRuntime) -> io::Result<()> {
    writing::rows(&rt)?;
    writing::sizes(&rt)?;
    writing::refusals(&rt)?;
    writing::longest(&rt)?;
    reading::lengths(&rt)?;
    reading::fields(&rt)?;
    reading::in_a_block(&rt)
}
