// The commands on a block and its iterator.
use basics::{IterationOrder, Refusal};
use block_iterator_v2::{BlockIteratorV2, Found};
use replay_text::{parse, show, words};
use std::io;

// What a step gave, in a word.
fn say(
    rt: &impl Print,
    answer: Result<Option<Found>, Refusal>,
    key: &[u8],
    block: &[u8],
) -> io::Result<()> {
    match answer {
        Ok(Some(found)) => {
            let row = found.row;
            show::bytes(rt, key, 0, row.shared.wrapping_add(row.suffix_len))?;
            show::row(rt, block, row)
        }
        Ok(None) => print!(rt; "done"),
        Err(r) => show::refusal(rt, r),
    }
}

fn step(rt: &impl Print, cursor: BlockIteratorV2, block: &[u8]) -> io::Result<BlockIteratorV2> {
    let mut key = [0u8; basics::MAX_KEY];
    let next = cursor.next(block, &mut key);
    say(rt, next.answer, &key, block)?;
    Ok(next.iterator)
}

// The rows that follow. A row has more than one byte, so there are turns enough for all of them.
fn rest(rt: &impl Print, cursor: BlockIteratorV2, block: &[u8]) -> io::Result<()> {
    let mut at = cursor;
    for _ in block {
        at = step(rt, at, block)?;
        if at.place.done {
            return Ok(());
        }
        print!(rt; " ")?;
    }
    Ok(())
}

// "Done" is no answer of the Rust's seek: the step after it says so.
fn sought(target: &[u8], cursor: BlockIteratorV2, block: &[u8]) -> BlockIteratorV2 {
    let mut bytes = [0u8; 8192];
    let n = parse::bytes(target, &mut bytes);
    cursor.seek(block, &bytes[..n]).iterator
}

fn is_empty(rt: &impl Print, cursor: BlockIteratorV2, block: &[u8]) -> io::Result<()> {
    match cursor.is_empty(block) {
        Ok(empty) => print!(rt; "{empty}"),
        Err(r) => show::refusal(rt, r),
    }
}

// A step of which nothing is said.
fn pass(cursor: BlockIteratorV2, block: &[u8]) -> BlockIteratorV2 {
    let mut key = [0u8; basics::MAX_KEY];
    cursor.next(block, &mut key).iterator
}

// Whether it is empty after so many steps.
fn empty_after(
    rt: &impl Print,
    steps: u64,
    cursor: BlockIteratorV2,
    block: &[u8],
) -> io::Result<()> {
    let mut at = cursor;
    for _ in 0..steps {
        at = pass(at, block);
    }
    is_empty(rt, at, block)
}

// One operation, in a word: n: next, e: is_empty, i: init, which in the Rust does nothing, s:HEX: seek.
fn operate(
    rt: &impl Print,
    op: &[u8],
    cursor: BlockIteratorV2,
    block: &[u8],
) -> io::Result<BlockIteratorV2> {
    match op {
        [b'n', ..] => step(rt, cursor, block),
        [b'e', ..] => {
            is_empty(rt, cursor, block)?;
            Ok(cursor)
        }
        [b'i', ..] => {
            print!(rt; "ok")?;
            Ok(cursor)
        }
        _ => {
            let at = sought(words::word(op, b':', 1), cursor, block);
            print!(rt; "ok")?;
            Ok(at)
        }
    }
}

// The operations that follow the line's block, with a space between two.
fn operate_all(
    rt: &impl Print,
    line: &[u8],
    cursor: BlockIteratorV2,
    block: &[u8],
) -> io::Result<()> {
    let mut at = cursor;
    for (before, op) in line.split(|b| *b == b' ').skip(3).enumerate() {
        if 0 < before {
            print!(rt; " ")?;
        }
        at = operate(rt, op, at, block)?;
    }
    Ok(())
}

fn order(word: &[u8]) -> IterationOrder {
    match word {
        [b'a', ..] => IterationOrder::Ascending,
        _ => IterationOrder::Descending,
    }
}

// Gives what reads it the line's block, opened. The list has only blocks that the check accepts. Such a block opens, and refuses no step and no seek.
fn open<F: FnOnce(BlockIteratorV2, &[u8]) -> io::Result<()>>(
    rt: &impl Print,
    line: &[u8],
    read: F,
) -> io::Result<()>
    requires { F.IsAlwaysCallable read }
{
    let mut bytes = [0u8; 8192];
    let n = parse::bytes(words::word(line, b' ', 2), &mut bytes);
    let block = &bytes[..n];
    if let Err(r) = block_check_v2::check(block) {
        return show::refusal(rt, r);
    }
    let opened = BlockIteratorV2::new(block, order(words::word(line, b' ', 1)));
    read(opened.iterator, block)
}

// scan2 ORDER BLOCK
pub fn scan(rt: &impl Print, line: &[u8]) -> io::Result<()> {
    open(rt, line, |cursor, block| rest(rt, cursor, block))
}

// seek2 ORDER BLOCK TARGET
pub fn seek(rt: &impl Print, line: &[u8]) -> io::Result<()> {
    let target = words::word(line, b' ', 3);
    open(
        rt,
        line,
        |cursor, block| rest(rt, sought(target, cursor, block), block),
    )
}

// walk2 ORDER BLOCK OP..
pub fn walk(rt: &impl Print, line: &[u8]) -> io::Result<()> {
    open(
        rt,
        line,
        |cursor, block| operate_all(rt, line, cursor, block),
    )
}

// isempty2 ORDER BLOCK STEPS
pub fn empty(rt: &impl Print, line: &[u8]) -> io::Result<()> {
    let steps = parse::number(words::word(line, b' ', 3));
    open(
        rt,
        line,
        |cursor, block| empty_after(rt, steps, cursor, block),
    )
}
