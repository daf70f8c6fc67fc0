// A command's name, and what answers it.
use crate::{single, writing};
use replay_text::lines::Commands;
use replay_text::words;
use std::io;

pub struct RowsAndBuilders;

impl Commands for RowsAndBuilders {
    fn answer(&self, rt: &impl Print, line: &[u8]) -> io::Result<()> {
        match words::word(line, b' ', 0) {
            b"build2" => writing::build(rt, line),
            b"fit2" => writing::fit(rt, line),
            b"row2" => single::row(rt, line),
            b"varint" => single::varint(rt, line),
            b"unrow2" => single::unrow(rt, line),
            b"key2" => single::key(rt, line),
            b"unvarint" => single::unvarint(rt, line),
            _ => print!(rt; "?"),
        }
    }
}
