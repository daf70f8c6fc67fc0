// A command's name, and what answers it.
use crate::reading;
use replay_text::lines::Commands;
use replay_text::words;
use std::io;

pub struct Blocks;

impl Commands for Blocks {
    fn answer(&self, rt: &impl Print, line: &[u8]) -> io::Result<()> {
        match words::word(line, b' ', 0) {
            b"scan2" => reading::scan(rt, line),
            b"seek2" => reading::seek(rt, line),
            b"walk2" => reading::walk(rt, line),
            b"isempty2" => reading::empty(rt, line),
            _ => print!(rt; "?"),
        }
    }
}
