// Answers a stored list of commands with the proved code, a line for each. The file `stdout` is what slatedb 0.16.0's own code printed for the same list,
// so a run that writes the same is a comparison with the Rust where no Rust is at hand.
// These are the commands on rows, numbers and builders; `replay_blocks` has those on blocks and their iterators.
// Bytes are written in hexadecimal digits; `-` is none of them, or a time that is absent. A row is KEY:KIND:VALUE:SEQ:EXPIRE:CREATE, its kind v, t or m.
#![tactic(auto)]

mod answer;
mod single;
mod writing;

use replay_text::lines;
use std::io;

fn main(rt: HostRuntime) -> io::Result<()> {
    lines::answer_input(&rt, &answer::RowsAndBuilders)
}
