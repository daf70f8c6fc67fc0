// Cases 6 and 7, and the spellings of a number: numbers and rows by themselves.
use replay_text::say;
use std::io;

fn number(rt: &impl Print, s: &[u8]) -> io::Result<()> {
    match utils_decode::decode_varint(s, 0) {
        Ok(read) => println!(rt; "{}", read.value),
        Err(r) => say::refusal(rt, r),
    }
}

pub fn numbers(rt: &impl Print) -> io::Result<()> {
    println!(rt; "case 6")?;
    number(rt, b"\xFF\xFF\xFF\xFF\x0F")?;
    number(rt, b"\xFF\xFF\xFF\xFF\x10")
}

fn key(rt: &impl Print, s: &[u8]) -> io::Result<()> {
    match row_decode_v2::decode_key_only(s, 0, s.len(), 0, false) {
        Ok(_) => println!(rt; "a key"),
        Err(r) => say::refusal(rt, r),
    }
}

// A number's bytes are those that are written for it: any other spelling is refused, in every length of a row.
pub fn spellings(rt: &impl Print) -> io::Result<()> {
    println!(rt; "one spelling for a number")?;
    number(rt, b"\x00")?;
    number(rt, b"\x80\x00")?;
    number(rt, b"\x80\x80\x80\x80\x00")?;
    number(rt, b"\xFF\x80\x00")?;
    number(rt, b"\xFF\xFF\xFF\xFF\x00")?;
    number(rt, b"\x80")?;
    number(rt, b"\x80\x80")?;
    key(rt, b"\x00\x01\x80\x00a")?;
    read(rt, b"\x85\x00\x01\x00a\x00\x00\x00\x00\x00\x00\x00\x01\x00")
}

fn read(rt: &impl Print, s: &[u8]) -> io::Result<()> {
    match row_decode_v2::decode(s, 0) {
        Ok(found) => println!(rt; "a row up to {}", found.next),
        Err(r) => say::refusal(rt, r),
    }
}

pub fn flags(rt: &impl Print) -> io::Result<()> {
    println!(rt; "case 7")?;
    read(rt, b"\x00\x01\x00a\x00\x00\x00\x00\x00\x00\x00\x01\x09")?;
    read(rt, b"\x00\x01\x00a\x00\x00\x00\x00\x00\x00\x00\x01\x10")
}
