// Answers as lines of text.
use journal::{Found, Record, Refusal};
use journal_balance::Balanced;
use journal_read::Reading;
use std::io;

fn refusal(rt: &impl Print, r: Refusal) -> io::Result<()> {
    let number = u8::from(r);
    match r {
        Refusal::UnknownKind(at) => println!(rt; "refusal {number} at {at}"),
        _ => println!(rt; "refusal {number}"),
    }
}

fn record(rt: &impl Print, r: Record, next: usize) -> io::Result<()> {
    match r {
        Record::Debit {
            card,
            retry,
            amount,
        } => println!(rt; "debit {card} {retry} {amount}, next {next}"),
        Record::TopUp {
            card,
            retry,
            amount,
        } => println!(rt; "top-up {card} {retry} {amount}, next {next}"),
        Record::Close { card } => println!(rt; "close {card}, next {next}"),
    }
}

pub fn found(rt: &impl Print, f: Result<Found, Refusal>) -> io::Result<()> {
    match f {
        Ok(Found::Whole { record: r, next }) => record(rt, r, next),
        Ok(Found::Incomplete) => println!(rt; "incomplete"),
        Ok(Found::End) => println!(rt; "end"),
        Err(r) => refusal(rt, r),
    }
}

fn tail(rt: &impl Print, t: Option<usize>) -> io::Result<()> {
    match t {
        None => println!(rt; ", no tail"),
        Some(at) => println!(rt; ", tail from {at}"),
    }
}

pub fn reading(rt: &impl Print, r: Result<Reading, Refusal>) -> io::Result<()> {
    match r {
        Ok(Reading { records, tail: t }) => {
            print!(rt; "{records} records")?;
            tail(rt, t)
        }
        Err(x) => refusal(rt, x),
    }
}

pub fn balanced(rt: &impl Print, b: Result<Balanced, Refusal>) -> io::Result<()> {
    match b {
        Ok(Balanced { balance, tail: t }) => {
            print!(rt; "{balance}")?;
            tail(rt, t)
        }
        Err(x) => refusal(rt, x),
    }
}

// The used length after it: where it is refused, what it was.
pub fn appended(rt: &impl Print, a: Result<usize, Refusal>, used: usize) -> io::Result<usize> {
    match a {
        Ok(n) => {
            println!(rt; "used {n}")?;
            Ok(n)
        }
        Err(x) => {
            refusal(rt, x)?;
            Ok(used)
        }
    }
}
