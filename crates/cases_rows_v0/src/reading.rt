// What is read: a row by itself, and a row and its key in a block.
use basics::Refusal;
use replay_text::{say, show};
use row_decode_v2::Row;
use std::io;

// A row by itself: its share, its suffix, where it ends, and what it holds.
pub fn alone(rt: &impl Print, s: &[u8], first_len: usize) -> io::Result<()> {
    match row_decode_v0::decode(s, first_len) {
        Ok(found) => {
            print!(rt;
                "read: share {}, suffix {}, ",
                found.shared, found.suffix_len
            )?;
            print!(rt; "up to {} ", found.next)?;
            show::row(rt, s, found)?;
            println!(rt;)
        }
        Err(r) => say::refusal(rt, r),
    }
}

fn ended(rt: &impl Print, read: Result<Row, Refusal>) -> io::Result<()> {
    match read {
        Ok(found) => println!(rt; "a row up to {}", found.next),
        Err(r) => say::refusal(rt, r),
    }
}

pub fn ends(rt: &impl Print, s: &[u8], first_len: usize) -> io::Result<()> {
    ended(rt, row_decode_v0::decode(s, first_len))
}

pub fn lengths(rt: &impl Print) -> io::Result<()> {
    println!(rt; "lengths: 9, 13, 1, 2")?;
    ends(rt, b"", 0)?;
    ends(rt, b"\x00\x00\x00", 0)?;
    ends(rt, b"\x00\x01\x00\x00", 0)?;
    ends(rt, b"\x00\x02\x10\x01", 1)?;
    ends(rt, b"\x00\x00\x00\x00", 1)?;
    ends(rt, b"\x00\x01\x10\x00", 1)?;
    ends(rt, b"\x00\x00\x10\x01", 0)?;
    ends(rt, b"\x00\x00\x10\x00", 0)
}

pub fn fields(rt: &impl Print) -> io::Result<()> {
    println!(rt; "fields: 9, 11, 12, 9, 9, 3, 9")?;
    ends(rt, b"\x00\x00\x00\x01a\x00\x00\x00\x00\x00\x00\x00\x01", 0)?;
    ends(
        rt,
        b"\x00\x00\x00\x01a\x00\x00\x00\x00\x00\x00\x00\x01\x10",
        0,
    )?;
    ends(
        rt,
        b"\x00\x00\x00\x01a\x00\x00\x00\x00\x00\x00\x00\x01\x0B",
        0,
    )?;
    ends(
        rt,
        b"\x00\x00\x00\x01a\x00\x00\x00\x00\x00\x00\x00\x01\x02\x00",
        0,
    )?;
    ends(
        rt,
        b"\x00\x00\x00\x01a\x00\x00\x00\x00\x00\x00\x00\x01\x00\x00\x00\x00",
        0,
    )?;
    ends(
        rt,
        b"\x00\x00\x00\x01a\x00\x00\x00\x00\x00\x00\x00\x01\x00\x00\x01\x00\x00",
        0,
    )?;
    ends(
        rt,
        b"\x00\x00\x00\x01a\x00\x00\x00\x00\x00\x00\x00\x01\x00\x00\x00\xFF\xFF",
        0,
    )?;
    ends(
        rt,
        b"\x00\x00\x00\x01a\x00\x00\x00\x00\x00\x00\x00\x01\x00\x00\x00\x00\x00\x00",
        0,
    )
}

fn key(rt: &impl Print, s: &[u8], end: usize, most: usize) -> io::Result<()> {
    match row_decode_v0::decode_key_only(s, 0, end, most) {
        Ok(place) => println!(rt; "a key that shares {}", place.shared),
        Err(r) => say::refusal(rt, r),
    }
}

// The row at the start of the data, and its key alone, where the next row starts at `end`.
fn stands(rt: &impl Print, s: &[u8], end: usize, most: usize) -> io::Result<()> {
    ended(rt, row_decode_v0::decode_at(s, 0, end, most))?;
    key(rt, s, end, most)
}

pub fn in_a_block(rt: &impl Print) -> io::Result<()> {
    println!(rt; "in a block: the row's end and the next one's start")?;
    let a = b"\x00\x00\x00\x01a\x00\x00\x00\x00\x00\x00\x00\x01\x00\x00\x00\x00\x00";
    stands(rt, a, 18, 0)?;
    stands(rt, a, 17, 0)?;
    stands(rt, a, 4, 0)?;
    stands(
        rt,
        b"\x00\x00\x00\x01a\x00\x00\x00\x00\x00\x00\x00\x01\x00\x00\x00\x00\x00\x00",
        19,
        0,
    )?;
    println!(rt; "a tombstone before another row")?;
    let gone = b"\x00\x00\x00\x01a\x00\x00\x00\x00\x00\x00\x00\x01\x01\x00\x01\x00\x00";
    stands(rt, gone, 14, 0)?;
    stands(rt, gone, 15, 0)?;
    println!(rt; "row 0 shares nothing")?;
    let shares = b"\x00\x01\x00\x00\x00\x00\x00\x00\x00\x00\x00\x02\x01";
    stands(rt, shares, 13, 0)?;
    stands(rt, shares, 13, 1)
}
