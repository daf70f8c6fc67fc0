// The longest key, and one byte more, through every call that takes or reads a row's key. What they should answer stands in the file `stdout` alone.
#![tactic(auto)]

mod building;
mod reading;
mod rows;

use std::io;

fn main(rt: HostRuntime) -> io::Result<()> {
    println!(&rt; "a key of 4,096 bytes")?;
    rows::longest(&rt)?;
    building::longest(&rt)?;
    reading::longest(&rt)?;
    println!(&rt; "and a row that shares 4,095 of them")?;
    building::shared(&rt)?;
    println!(&rt; "a key of 4,097 bytes")?;
    rows::longer(&rt)?;
    building::longer(&rt)?;
    reading::longer(&rt)?;
    println!(&rt; "as the length of a key that is carried")?;
    building::carried(&rt)?;
    reading::carried(&rt)
}
