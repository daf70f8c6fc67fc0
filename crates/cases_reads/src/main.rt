// The desk's cases on what is read, numbers, rows and blocks, through the code, as `cases` has those on what is written. What should be printed stands in the file
// `stdout` alone.
#![tactic(auto)]

mod newest;
mod reading;
mod rows;

use std::io;

fn main(rt: HostRuntime) -> io::Result<()> {
    rows::numbers(&rt)?;
    rows::spellings(&rt)?;
    rows::flags(&rt)?;
    reading::seeks(&rt)?;
    newest::among_three(&rt)?;
    newest::largest(&rt)
}
