// Worked examples of the journal, through the code. It prints what the code answered; what that should be stands in the file `stdout` alone.
#![tactic(auto)]

mod say;

use journal::Record;
use std::io;

fn debit(card: u64, retry: u64, amount: u32) -> Record {
    Record::Debit {
        card,
        retry,
        amount,
    }
}

fn top_up(card: u64, retry: u64, amount: u32) -> Record {
    Record::TopUp {
        card,
        retry,
        amount,
    }
}

// The first `n` bytes.
fn first(buffer: &[u8], n: usize) -> &[u8] {
    buffer.get(..n).unwrap_or(buffer)
}

fn add(rt: &impl Print, buffer: &mut [u8], used: usize, record: Record) -> io::Result<usize> {
    say::appended(rt, journal_append::append(buffer, used, record), used)
}

// What is read, and the balances of cards 7 and 8.
fn shown(rt: &impl Print, journal: &[u8]) -> io::Result<()> {
    say::reading(rt, journal_read::read(journal))?;
    say::balanced(rt, journal_balance::balance(journal, 7))?;
    say::balanced(rt, journal_balance::balance(journal, 8))
}

fn at(rt: &impl Print, journal: &[u8], place: usize) -> io::Result<()> {
    say::found(rt, journal::record_at(journal, place))
}

fn kinds(rt: &impl Print) -> io::Result<()> {
    println!(rt; "empty")?;
    let mut buffer = [0u8; 51];
    shown(rt, first(&buffer, 0))?;
    at(rt, first(&buffer, 0), 0)?;
    println!(rt; "one of each kind")?;
    let a = add(rt, &mut buffer, 0, top_up(7, 1, 500))?;
    let b = add(rt, &mut buffer, a, debit(7, 2, 200))?;
    add(rt, &mut buffer, b, Record::Close { card: 7 })?;
    shown(rt, &buffer)?;
    at(rt, &buffer, 0)?;
    at(rt, &buffer, 21)?;
    at(rt, &buffer, 42)?;
    at(rt, &buffer, 51)?;
    at(rt, first(&buffer, 50), 42)?;
    at(rt, &buffer, 1)
}

fn doubles(rt: &impl Print) -> io::Result<()> {
    println!(rt; "doubles of each kind")?;
    let mut buffer = [0u8; 84];
    let a = add(rt, &mut buffer, 0, top_up(7, 1, 500))?;
    let b = add(rt, &mut buffer, a, top_up(7, 1, 900))?;
    let c = add(rt, &mut buffer, b, debit(7, 2, 200))?;
    add(rt, &mut buffer, c, debit(7, 2, 1))?;
    shown(rt, &buffer)
}

fn two_kinds(rt: &impl Print) -> io::Result<()> {
    println!(rt; "one retry number, two kinds, two cards")?;
    let mut buffer = [0u8; 63];
    let a = add(rt, &mut buffer, 0, top_up(7, 1, 500))?;
    let b = add(rt, &mut buffer, a, debit(7, 1, 30))?;
    add(rt, &mut buffer, b, debit(8, 1, 4294967295))?;
    shown(rt, &buffer)
}

fn closes(rt: &impl Print) -> io::Result<()> {
    println!(rt; "a close, a second one, and what comes after")?;
    let mut buffer = [0u8; 81];
    let a = add(rt, &mut buffer, 0, top_up(7, 1, 500))?;
    let b = add(rt, &mut buffer, a, Record::Close { card: 7 })?;
    let c = add(rt, &mut buffer, b, Record::Close { card: 7 })?;
    let d = add(rt, &mut buffer, c, debit(7, 3, 50))?;
    add(rt, &mut buffer, d, top_up(8, 3, 5))?;
    shown(rt, &buffer)
}

// The balance of card 7 in each part.
fn cut(rt: &impl Print, journal: &[u8]) -> io::Result<()> {
    for n in 0..journal.len() {
        say::balanced(rt, journal_balance::balance(first(journal, n), 7))?;
    }
    Ok(())
}

fn cuts(rt: &impl Print) -> io::Result<()> {
    println!(rt; "a top-up, another card's close and a debit, cut at every byte")?;
    let mut buffer = [0u8; 51];
    let a = add(rt, &mut buffer, 0, top_up(7, 1, 500))?;
    let b = add(rt, &mut buffer, a, Record::Close { card: 8 })?;
    add(rt, &mut buffer, b, debit(7, 2, 700))?;
    cut(rt, &buffer)?;
    shown(rt, &buffer)
}

fn unknown(rt: &impl Print) -> io::Result<()> {
    println!(rt; "an unknown kind, as the last byte, and a used length past the buffer")?;
    let mut buffer = [0u8; 22];
    add(rt, &mut buffer, 0, top_up(7, 1, 500))?;
    shown(rt, &buffer)?;
    at(rt, &buffer, 21)?;
    add(rt, &mut buffer, 22, debit(7, 2, 1))?;
    add(rt, &mut buffer, 23, debit(7, 2, 1))?;
    println!(rt; "a tail of one byte")?;
    buffer[21] = 3;
    shown(rt, &buffer)?;
    add(rt, &mut buffer, 22, debit(7, 2, 1))?;
    Ok(())
}

fn rooms(rt: &impl Print) -> io::Result<()> {
    println!(rt; "a buffer with a byte too few, and one with none to spare")?;
    let mut short = [0u8; 20];
    add(rt, &mut short, 0, debit(7, 2, 1))?;
    let mut exact = [0u8; 21];
    add(rt, &mut exact, 0, debit(7, 2, 1))?;
    let mut close = [0u8; 8];
    add(rt, &mut close, 0, Record::Close { card: 7 })?;
    let mut whole = [0u8; 9];
    add(rt, &mut whole, 0, Record::Close { card: 7 })?;
    Ok(())
}

// Debits until one is refused: the used length.
fn fill(buffer: &mut [u8]) -> usize {
    let mut used = 0;
    for i in 0..3120 {
        used = journal_append::append(buffer, used, debit(7, i, 4294967295)).unwrap_or(used);
    }
    used
}

fn full(rt: &impl Print) -> io::Result<()> {
    println!(rt; "3,120 debits, each the largest, and a close: 65,529 bytes")?;
    let mut buffer = [3u8; 65537];
    let used = fill(&mut buffer);
    shown(rt, first(&buffer, used))?;
    add(rt, &mut buffer, used, debit(7, 9, 1))?;
    let a = add(rt, &mut buffer, used, Record::Close { card: 8 })?;
    add(rt, &mut buffer, a, Record::Close { card: 8 })?;
    println!(rt; "65,536 bytes, and one more, also with an unknown kind")?;
    shown(rt, first(&buffer, 65536))?;
    shown(rt, &buffer)?;
    add(rt, &mut buffer, 65536, Record::Close { card: 8 })?;
    add(rt, &mut buffer, 65537, Record::Close { card: 8 })?;
    buffer[0] = 0;
    shown(rt, &buffer)?;
    at(rt, &buffer, 0)?;
    add(rt, &mut buffer, 65537, Record::Close { card: 8 })?;
    Ok(())
}

fn main(rt: HostRuntime) -> io::Result<()> {
    kinds(&rt)?;
    doubles(&rt)?;
    two_kinds(&rt)?;
    closes(&rt)?;
    cuts(&rt)?;
    unknown(&rt)?;
    rooms(&rt)?;
    full(&rt)
}
