// Cases 8 to 10, and the walks both ways, on the block of keys a, b, b, b, c with interval 2. A row is known by where it starts.
use basics::IterationOrder;
use block_iterator_v2::{BlockIteratorV2, SeekAnswer};
use replay_text::say;
use std::io;

pub fn checked(rt: &impl Print, block: &[u8]) -> io::Result<()> {
    match block_check_v2::check(block) {
        Ok(n) => println!(rt; "accepted, rows: {n}"),
        Err(r) => say::refusal(rt, r),
    }
}

// The number of the row that starts there; 5 is none's. The fourth row shares its whole key, so it is a byte shorter than the others.
fn number_of(start: usize) -> u64 {
    match start {
        0 => 0,
        13 => 1,
        26 => 2,
        39 => 3,
        51 => 4,
        _ => 5,
    }
}

// One step, and what it gives.
fn step(rt: &impl Print, cursor: BlockIteratorV2, block: &[u8]) -> io::Result<BlockIteratorV2> {
    let mut key = [0u8; 8];
    let next = cursor.next(block, &mut key);
    match next.answer {
        Ok(Some(found)) => print!(rt; " row {}", number_of(found.row.start))?,
        Ok(None) => print!(rt; " done")?,
        Err(r) => say::refusal(rt, r)?,
    }
    Ok(next.iterator)
}

// Five rows, and a step past them.
fn walk(rt: &impl Print, block: &[u8], order: IterationOrder) -> io::Result<()> {
    let mut cursor = BlockIteratorV2::new(block, order).iterator;
    for _ in 0..6 {
        cursor = step(rt, cursor, block)?;
    }
    println!(rt;)
}

fn seek(rt: &impl Print, block: &[u8], order: IterationOrder, target: &[u8]) -> io::Result<()> {
    let sought = BlockIteratorV2::new(block, order)
        .iterator
        .seek(block, target);
    match sought.answer {
        Ok(SeekAnswer::Landed(reads)) => print!(rt; "{reads} keys read:")?,
        Ok(SeekAnswer::Done(reads)) => print!(rt; "{reads} keys read, none:")?,
        Err(r) => say::refusal(rt, r)?,
    }
    step(rt, sought.iterator, block)?;
    println!(rt;)
}

fn both_ways(rt: &impl Print, block: &[u8], target: &[u8]) -> io::Result<()> {
    print!(rt; "ascending: ")?;
    seek(rt, block, IterationOrder::Ascending, target)?;
    print!(rt; "descending: ")?;
    seek(rt, block, IterationOrder::Descending, target)
}

fn all_seeks(rt: &impl Print, block: &[u8]) -> io::Result<()> {
    print!(rt; "forwards:")?;
    walk(rt, block, IterationOrder::Ascending)?;
    print!(rt; "backwards:")?;
    walk(rt, block, IterationOrder::Descending)?;
    println!(rt; "case 8, target b")?;
    both_ways(rt, block, b"b")?;
    println!(rt; "case 9, target bb")?;
    both_ways(rt, block, b"bb")?;
    println!(rt; "case 10, target d")?;
    both_ways(rt, block, b"d")?;
    println!(rt; "case 10, empty target")?;
    both_ways(rt, block, b"")
}

// The block of the five rows, as `cases` builds it, with these numbers of the rows of key b.
pub fn five_rows(first: u8, second: u8, third: u8) -> [u8; 72] {
    let mut block =
        *b"\x00\x01\x00a\x00\x00\x00\x00\x00\x00\x00\x00\x00\x00\x01\x00b\x00\x00\x00\x00\x00\x00\x00\x00\x00\x00\x01\x00b\x00\x00\x00\x00\x00\x00\x00\x00\x00\x01\x00\x00\x00\x00\x00\x00\x00\x00\x00\x00\x00\x00\x01\x00c\x00\x00\x00\x00\x00\x00\x00\x04\x00\x00\x00\x00\x1A\x00\x33\x00\x03";
    block[24] = first;
    block[37] = second;
    block[49] = third;
    block
}

pub fn seeks(rt: &impl Print) -> io::Result<()> {
    let block = five_rows(3, 2, 1);
    checked(rt, &block)?;
    all_seeks(rt, &block)
}
