// A block of the row alone: checked, walked both ways, sought in both ways.
use crate::rows;
use basics::IterationOrder;
use block_iterator_v2::{BlockIteratorV2, SeekAnswer};
use replay_text::say;
use std::io;

const BLOCK: usize = rows::ROW + 4;

fn checked(rt: &impl Print, block: &[u8]) -> io::Result<()> {
    print!(rt; "checked, rows: ")?;
    rows::told(rt, block_check_v2::check(block))
}

// One step, and the length of the key that it gives.
fn step(rt: &impl Print, cursor: BlockIteratorV2, block: &[u8]) -> io::Result<()> {
    let mut key = [0u8; 8192];
    match cursor.next(block, &mut key).answer {
        Ok(Some(found)) => {
            let row = found.row;
            println!(rt; "a key of {}", row.shared.wrapping_add(row.suffix_len))
        }
        Ok(None) => println!(rt; "done"),
        Err(r) => say::refusal(rt, r),
    }
}

fn seek(rt: &impl Print, cursor: BlockIteratorV2, block: &[u8], target: &[u8]) -> io::Result<()> {
    match cursor.seek(block, target).answer {
        Ok(SeekAnswer::Landed(_)) => println!(rt; "landed"),
        Ok(SeekAnswer::Done(_)) => println!(rt; "none"),
        Err(r) => say::refusal(rt, r),
    }
}

fn along(rt: &impl Print, block: &[u8], order: IterationOrder, key: &[u8]) -> io::Result<()> {
    let opened = BlockIteratorV2::new(block, order);
    let cursor = opened.iterator;
    match opened.answer {
        Ok(()) => {
            print!(rt; "stepped: ")?;
            step(rt, cursor, block)?;
        }
        Err(r) => {
            print!(rt; "opened: ")?;
            say::refusal(rt, r)?;
        }
    }
    print!(rt; "sought: ")?;
    seek(rt, cursor, block, key)
}

fn read(rt: &impl Print, block: &[u8], key: &[u8]) -> io::Result<()> {
    checked(rt, block)?;
    along(rt, block, IterationOrder::Ascending, key)?;
    along(rt, block, IterationOrder::Descending, key)
}

pub fn longest(rt: &impl Print) -> io::Result<()> {
    let mut block = [b'k'; BLOCK];
    rows::lay(&mut block, b"\x00\x80\x20\x00", rows::LONGEST + 4);
    let _ = buf_mut::copy_in(&mut block, rows::ROW, b"\x00\x00\x00\x01");
    let key = [b'k'; rows::LONGEST];
    read(rt, &block, &key)
}

pub fn longer(rt: &impl Print) -> io::Result<()> {
    let mut block = [b'k'; BLOCK + 1];
    rows::lay(&mut block, b"\x00\x81\x20\x00", rows::LONGER + 4);
    let _ = buf_mut::copy_in(&mut block, rows::ROW + 1, b"\x00\x00\x00\x01");
    let key = [b'k'; rows::LONGER];
    read(rt, &block, &key)
}

// A cursor that says its key is so long, before case 1's row.
fn carries(rt: &impl Print, key_len: usize) -> io::Result<()> {
    let block = b"\x00\x01\x00a\x00\x00\x00\x00\x00\x00\x00\x01\x00\x00\x00\x00\x01";
    let mut cursor = BlockIteratorV2::new(block, IterationOrder::Ascending).iterator;
    cursor.place.key_len = key_len;
    print!(rt; "stepped: ")?;
    step(rt, cursor, block)
}

pub fn carried(rt: &impl Print) -> io::Result<()> {
    carries(rt, rows::LONGEST)?;
    carries(rt, rows::LONGER)
}
