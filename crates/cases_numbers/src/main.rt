// Which row is this: the cases on the pairs that name rows and on the numbers of cursors, through the code. What should be printed stands in the file `stdout`
// alone.
#![tactic(auto)]

mod blocks;
mod forged;
mod travel;

use std::io;

fn main(rt: HostRuntime) -> io::Result<()> {
    travel::walks(&rt)?;
    travel::seeks(&rt)?;
    travel::damaged(&rt)?;
    forged::ascending(&rt)?;
    forged::descending(&rt)?;
    forged::marked(&rt)
}
