// What is read: blocks checked, walked and sought in, both ways. Of each row its number, its key, what it holds, and how many rows the cursor has passed then.
use basics::IterationOrder;
use block_iterator::BlockIterator;
use replay_text::{say, show};
use std::io;

pub fn checked(rt: &impl Print, block: &[u8]) -> io::Result<()> {
    match block_check_v1::check(block) {
        Ok(n) => println!(rt; "accepted, rows: {n}"),
        Err(r) => say::refusal(rt, r),
    }
}

fn passed(rt: &impl Print, c: BlockIterator) -> io::Result<()> {
    println!(rt; ", passed {}", c.passed)
}

// One step, and what it gives.
pub fn step(rt: &impl Print, cursor: BlockIterator, block: &[u8]) -> io::Result<BlockIterator> {
    let mut key = [0u8; 8];
    let next = cursor.next(block, &mut key);
    match next.answer {
        Ok(Some(found)) => {
            let row = found.row;
            print!(rt; "row {} ", found.number)?;
            show::bytes(rt, &key, 0, row.shared.wrapping_add(row.suffix_len))?;
            show::row(rt, block, row)?;
            passed(rt, next.iterator)?;
        }
        Ok(None) => {
            print!(rt; "done")?;
            passed(rt, next.iterator)?;
        }
        Err(r) => say::refusal(rt, r)?,
    }
    Ok(next.iterator)
}

// So many steps.
fn steps(
    rt: &impl Print,
    cursor: BlockIterator,
    block: &[u8],
    n: usize,
) -> io::Result<BlockIterator> {
    let mut at = cursor;
    for _ in 0..n {
        at = step(rt, at, block)?;
    }
    Ok(at)
}

// A block opened, and three steps. A refused one leaves the cursor.
pub fn walk(rt: &impl Print, block: &[u8], order: IterationOrder) -> io::Result<BlockIterator> {
    let opened = BlockIterator::new(block, order);
    match opened.answer {
        Ok(()) => println!(rt; "opened")?,
        Err(r) => say::refusal(rt, r)?,
    }
    steps(rt, opened.iterator, block, 3)
}

// A seek, and the step after it. Of the cursor only the order counts.
pub fn seek(rt: &impl Print, block: &[u8], order: IterationOrder, target: &[u8]) -> io::Result<()> {
    let cursor = BlockIterator { order, passed: 9 };
    let sought = cursor.seek(block, target);
    match sought.answer {
        Ok(reads) => {
            print!(rt; "keys read {reads}: ")?;
            step(rt, sought.iterator, block)?;
            Ok(())
        }
        Err(r) => say::refusal(rt, r),
    }
}

fn all_targets(rt: &impl Print, block: &[u8], order: IterationOrder) -> io::Result<()> {
    seek(rt, block, order, b"ab")?;
    seek(rt, block, order, b"aa")?;
    seek(rt, block, order, b"c")?;
    seek(rt, block, order, b"")
}

// Keys a, ab and b, as `building` has them.
fn block_of_three() -> [u8; 63] {
    *b"\x00\x00\x00\x01a\x00\x00\x00\x00\x00\x00\x00\x01\x00\x00\x00\x00\x00\x00\x01\x00\x01b\x00\x00\x00\x00\x00\x00\x00\x02\x00\x00\x00\x00\x01x\x00\x00\x00\x01b\x00\x00\x00\x00\x00\x00\x00\x03\x00\x00\x00\x00\x00\x00\x00\x00\x12\x00\x25\x00\x03"
}

fn walks_and_seeks(rt: &impl Print, block: &[u8]) -> io::Result<()> {
    checked(rt, block)?;
    println!(rt; "forwards, and two steps more")?;
    let up = walk(rt, block, IterationOrder::Ascending)?;
    steps(rt, up, block, 2)?;
    println!(rt; "backwards")?;
    let down = walk(rt, block, IterationOrder::Descending)?;
    steps(rt, down, block, 2)?;
    println!(rt; "sought up: ab, aa, c, nothing")?;
    all_targets(rt, block, IterationOrder::Ascending)?;
    println!(rt; "down")?;
    all_targets(rt, block, IterationOrder::Descending)
}

pub fn three_rows(rt: &impl Print) -> io::Result<()> {
    let block = block_of_three();
    walks_and_seeks(rt, &block)
}

// As `building` has it.
pub fn tombstone(rt: &impl Print) -> io::Result<()> {
    println!(rt; "the tombstone's block")?;
    let block =
        b"\x00\x00\x00\x01a\x00\x00\x00\x00\x00\x00\x00\x01\x00\x00\x00\x00\x00\x00\x01\x00\x01b\x00\x00\x00\x00\x00\x00\x00\x02\x07\x00\x00\x00\x00\x00\x00\x00\x07\xFF\xFF\xFF\xFF\xFF\xFF\xFF\xFF\x00\x00\x00\x12\x00\x02";
    checked(rt, block)?;
    walk(rt, block, IterationOrder::Ascending)?;
    walk(rt, block, IterationOrder::Descending)?;
    Ok(())
}

// The key "a" twice, with these numbers.
fn twice(first: u8, second: u8) -> [u8; 41] {
    let mut block =
        *b"\x00\x00\x00\x01a\x00\x00\x00\x00\x00\x00\x00\x00\x00\x00\x00\x00\x00\x00\x01\x00\x00\x00\x00\x00\x00\x00\x00\x00\x00\x00\x00\x00\x00\x00\x00\x00\x00\x12\x00\x02";
    block[12] = first;
    block[29] = second;
    block
}

pub fn equal_keys(rt: &impl Print) -> io::Result<()> {
    println!(rt; "one key twice, numbers 2 and 1, 2 and 2, 1 and 2")?;
    let falling = twice(2, 1);
    checked(rt, &falling)?;
    let equal = twice(2, 2);
    checked(rt, &equal)?;
    let rising = twice(1, 2);
    checked(rt, &rising)?;
    walk(rt, &rising, IterationOrder::Ascending)?;
    seek(rt, &rising, IterationOrder::Descending, b"a")
}

fn empty(rt: &impl Print, block: &[u8], order: IterationOrder, passed: usize) -> io::Result<()> {
    match (BlockIterator { order, passed }).is_empty(block) {
        Ok(true) => println!(rt; "empty"),
        Ok(false) => println!(rt; "not empty"),
        Err(r) => say::refusal(rt, r),
    }
}

fn four_passed(rt: &impl Print, block: &[u8], order: IterationOrder) -> io::Result<()> {
    step(rt, BlockIterator { order, passed: 4 }, block)?;
    empty(rt, block, order, 4)?;
    empty(rt, block, order, 3)?;
    empty(rt, block, order, 2)
}

pub fn forged(rt: &impl Print) -> io::Result<()> {
    println!(rt; "four rows of three passed; then is_empty with 4, 3 and 2 passed")?;
    let block = block_of_three();
    four_passed(rt, &block, IterationOrder::Ascending)?;
    four_passed(rt, &block, IterationOrder::Descending)
}
