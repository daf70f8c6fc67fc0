// A list of commands on standard input, answered one after another, a line for each.
use crate::{input, words};
use std::io;

const MOST_INPUT: usize = 65536;
// So no word spells more bytes than a buffer of 8,192 holds.
const MOST_LINE: usize = 16384;

// The commands of a program.
pub trait Commands {
    fn answer(&self, rt: &impl Print, line: &[u8]) -> io::Result<()>;
}

fn answer_all(rt: &impl Print, text: &[u8], commands: &impl Commands) -> io::Result<()> {
    for ended in text.split_inclusive(|b| *b == b'\n') {
        let line = &ended[..words::end(ended, 0, b'\n')];
        if MOST_LINE < line.len() {
            print!(rt; "?")?;
        } else {
            commands.answer(rt, line)?;
        }
        println!(rt;)?;
    }
    Ok(())
}

pub fn answer_input(rt: &(impl Input + Print), commands: &impl Commands) -> io::Result<()> {
    // One byte more than is answered, to tell a list that is too long.
    let mut text = [0u8; MOST_INPUT + 1];
    let n = input::read_full(&mut rt.reader(), &mut text)?;
    if MOST_INPUT < n {
        return println!(rt; "input too long");
    }
    answer_all(rt, &text[..n], commands)
}
