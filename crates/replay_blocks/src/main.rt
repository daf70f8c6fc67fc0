// Answers a stored list of commands on blocks and their iterators with the proved code, as `replay` does those on rows, numbers and builders: the file `stdout`
// is what slatedb 0.16.0's own code printed for the same list.
#![tactic(auto)]

mod answer;
mod reading;

use replay_text::lines;
use std::io;

fn main(rt: HostRuntime) -> io::Result<()> {
    lines::answer_input(&rt, &answer::Blocks)
}
