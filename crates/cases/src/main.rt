// The desk's cases on what is written, rows, numbers and blocks, and the slips this trade knows, through the code. It prints the bytes and numbers that the code answered; what
// they should be stands in the file `stdout` alone.
#![tactic(auto)]

mod show;
mod writing;

use std::io;

fn main(rt: HostRuntime) -> io::Result<()> {
    writing::rows(&rt)?;
    writing::blocks(&rt)?;
    writing::numbers(&rt)?;
    writing::far_restarts(&rt)?;
    writing::slips(&rt)?;
    writing::five_rows(&rt)
}
