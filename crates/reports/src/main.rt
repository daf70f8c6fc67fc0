// The report on each block of a list: a line of hexadecimal digits for each. An empty line is a block with no bytes.
//
// The blocks are one with a row of each kind and two restarts, and for each refusal of the check a block that is refused for it and for nothing that is tested before. The
// file `stdout` was made from docs/RULES.md without this code, by a script that lays each row's varints, bytes, number and flags one after another, sums what it has laid,
// and writes beside each refused block the number that the rules give for what was put wrong in it.
#![tactic(auto)]

use replay_text::{input, parse};
use std::io;

const MOST_INPUT: usize = 8192;

// Digits that the block has no room for are dropped.
fn report_line(rt: &impl Print, digits: &[u8]) -> io::Result<()> {
    let mut block = [0u8; 512];
    let n = parse::bytes(digits, &mut block);
    report_text::report(rt, &block[..n])
}

// What follows the last line's end is no line.
fn report_all(rt: &impl Print, text: &[u8]) -> io::Result<()> {
    for ended in text.split_inclusive(|b| *b == b'\n') {
        if let [digits @ .., b'\n'] = ended {
            report_line(rt, digits)?;
        }
    }
    Ok(())
}

fn main(rt: HostRuntime) -> io::Result<()> {
    let mut text = [0u8; MOST_INPUT + 1];
    let n = input::read_full(&mut rt.reader(), &mut text)?;
    if MOST_INPUT < n {
        return println!(&rt; "input too long");
    }
    report_all(&rt, &text[..n])
}
