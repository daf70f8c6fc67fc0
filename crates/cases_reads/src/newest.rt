// Newest first: where a row's key equals the one before, the check answers 17 unless its sequence number is smaller.
use crate::reading::{checked, five_rows};
use std::io;

fn numbers(rt: &impl Print, first: u8, second: u8, third: u8) -> io::Result<()> {
    print!(rt; "{first}, {second}, {third}: ")?;
    let block = five_rows(first, second, third);
    checked(rt, &block)
}

// Of the three rows of key b the first and the second stand on both sides of a restart, the second and the third in one region.
pub fn among_three(rt: &impl Print) -> io::Result<()> {
    println!(rt; "the same keys, other numbers of key b")?;
    numbers(rt, 1, 2, 3)?;
    numbers(rt, 2, 2, 2)?;
    numbers(rt, 2, 3, 1)?;
    numbers(rt, 2, 2, 1)?;
    numbers(rt, 3, 1, 2)?;
    numbers(rt, 3, 1, 1)
}

// Two rows of key b.
pub fn largest(rt: &impl Print) -> io::Result<()> {
    print!(rt; "the largest number and 0, in one region: ")?;
    checked(
        rt,
        b"\x00\x01\x00b\xFF\xFF\xFF\xFF\xFF\xFF\xFF\xFF\x00\x01\x00\x00\x00\x00\x00\x00\x00\x00\x00\x00\x00\x00\x00\x00\x01",
    )?;
    print!(rt; "0 and the largest: ")?;
    checked(
        rt,
        b"\x00\x01\x00b\x00\x00\x00\x00\x00\x00\x00\x00\x00\x01\x00\x00\xFF\xFF\xFF\xFF\xFF\xFF\xFF\xFF\x00\x00\x00\x00\x01",
    )?;
    print!(rt; "the largest number and 0, on both sides of a restart: ")?;
    checked(
        rt,
        b"\x00\x01\x00b\xFF\xFF\xFF\xFF\xFF\xFF\xFF\xFF\x00\x00\x01\x00b\x00\x00\x00\x00\x00\x00\x00\x00\x00\x00\x00\x00\x0D\x00\x02",
    )?;
    print!(rt; "0 and the largest: ")?;
    checked(
        rt,
        b"\x00\x01\x00b\x00\x00\x00\x00\x00\x00\x00\x00\x00\x00\x01\x00b\xFF\xFF\xFF\xFF\xFF\xFF\xFF\xFF\x00\x00\x00\x00\x0D\x00\x02",
    )
}
