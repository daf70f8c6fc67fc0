// Answers, in the words of the list.
use basics::{Refusal, ValueDeletable};
use row_decode_v2::Row;
use std::io;

// The `len` bytes of `s` from `start` on.
pub fn bytes(rt: &impl Print, s: &[u8], start: usize, len: usize) -> io::Result<()> {
    for b in s.iter().skip(start).take(len) {
        print!(rt; "{b:02x}")?;
    }
    Ok(())
}

// The Rust's word for the refusal, where it has one.
pub fn refusal(rt: &impl Print, r: Refusal) -> io::Result<()> {
    match r {
        Refusal::EmptyKey => print!(rt; "E:EmptyKey"),
        Refusal::RowDoesNotFit => print!(rt; "0"),
        Refusal::EmptyBlock => print!(rt; "E:EmptyBlock"),
        Refusal::UnknownFlags | Refusal::TombstoneWithMerge => print!(rt; "E:InvalidRowFlags"),
        other => {
            let number = u8::from(other);
            print!(rt; "refused {number}")
        }
    }
}

fn time(rt: &impl Print, t: Option<i64>) -> io::Result<()> {
    match t {
        Some(t) => print!(rt; ":{t}"),
        None => print!(rt; ":-"),
    }
}

fn value(rt: &impl Print, s: &[u8], held: ValueDeletable) -> io::Result<()> {
    let (kind, start, len) = match held {
        ValueDeletable::Value { start, len } => ('v', start, len),
        ValueDeletable::Merge { start, len } => ('m', start, len),
        ValueDeletable::Tombstone => ('t', 0, 0),
    };
    print!(rt; ":{kind}:")?;
    bytes(rt, s, start, len)?;
    print!(rt; ":")
}

// What follows the key of a row of `s`.
pub fn row(rt: &impl Print, s: &[u8], r: Row) -> io::Result<()> {
    let seq = r.seq;
    value(rt, s, r.held)?;
    print!(rt; "{seq}")?;
    time(rt, r.expire)?;
    time(rt, r.create)
}
