// Blocks of the earlier format through the code: built, checked, walked and sought in, both ways; then damaged ones, and cursors that can't be. What should be printed stands
// in the file `stdout` alone.
#![tactic(auto)]

mod building;
mod damaged;
mod reading;

use std::io;

fn main(rt: HostRuntime) -> io::Result<()> {
    building::three_rows(&rt)?;
    building::sizes(&rt)?;
    building::tombstone(&rt)?;
    reading::three_rows(&rt)?;
    reading::tombstone(&rt)?;
    reading::equal_keys(&rt)?;
    reading::forged(&rt)?;
    damaged::blocks(&rt)
}
