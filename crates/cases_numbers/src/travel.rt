// Blocks opened, walked and sought in, both ways: each row's pair, and where the cursor stands then, as region, position and number.
use crate::blocks;
use basics::IterationOrder;
use place_v2::Place;
use replay_text::say;
use seek_in_place_v2::Found;
use std::io;
use step_in_place_v2::Moved;

fn numbers(rt: &impl Print, p: Place) -> io::Result<()> {
    println!(rt; "{} {} {}", p.region, p.at, p.number)
}

// One step with the carried key bytes, and what it tells. A step that gives no row leaves the place as it came.
pub fn step(rt: &impl Print, carried: &mut [u8], p: Place, block: &[u8]) -> io::Result<Place> {
    let mut key = [0u8; 8];
    match step_in_place_v2::next_in_place(carried, p, block, &mut key) {
        Ok(
            Moved::Found {
                place,
                region,
                number,
                row: _,
            },
        ) => {
            print!(rt; "row {region}.{number}, then ")?;
            numbers(rt, place)?;
            Ok(place)
        }
        Ok(Moved::Done(place)) => {
            print!(rt; "done, then ")?;
            numbers(rt, place)?;
            Ok(place)
        }
        Err(r) => {
            say::refusal(rt, r)?;
            Ok(p)
        }
    }
}

// Five rows, and a step past them.
fn walk(rt: &impl Print, block: &[u8], order: IterationOrder) -> io::Result<()> {
    let mut place = place_v2::open_place(block, order).place;
    let mut carried = [0u8; basics::MAX_KEY];
    print!(rt; "opened at ")?;
    numbers(rt, place)?;
    for _ in 0..6 {
        place = step(rt, &mut carried, place, block)?;
    }
    Ok(())
}

pub fn walks(rt: &impl Print) -> io::Result<()> {
    let block = blocks::three_regions();
    println!(rt; "case 8's block forwards")?;
    walk(rt, &block, IterationOrder::Ascending)?;
    println!(rt; "backwards")?;
    walk(rt, &block, IterationOrder::Descending)
}

fn seek(rt: &impl Print, block: &[u8], order: IterationOrder, target: &[u8]) -> io::Result<()> {
    let opened = place_v2::open_place(block, order);
    let mut key = [0u8; basics::MAX_KEY];
    match seek_in_place_v2::seek_in_place(&mut key, opened.place, block, target) {
        Ok(Found::Landed { place, reads: _ }) => numbers(rt, place),
        Ok(Found::Done { place, reads: _ }) => {
            print!(rt; "none, ")?;
            numbers(rt, place)
        }
        Err(r) => say::refusal(rt, r),
    }
}

fn all_targets(rt: &impl Print, block: &[u8], order: IterationOrder) -> io::Result<()> {
    seek(rt, block, order, b"")?;
    seek(rt, block, order, b"b")?;
    seek(rt, block, order, b"bb")?;
    seek(rt, block, order, b"d")
}

pub fn seeks(rt: &impl Print) -> io::Result<()> {
    let block = blocks::three_regions();
    println!(rt; "sought up: nothing, b, bb, d")?;
    all_targets(rt, &block, IterationOrder::Ascending)?;
    println!(rt; "down")?;
    all_targets(rt, &block, IterationOrder::Descending)
}

fn open(rt: &impl Print, block: &[u8], order: IterationOrder) -> io::Result<()> {
    let opened = place_v2::open_place(block, order);
    match opened.answer {
        Ok(()) => numbers(rt, opened.place),
        Err(r) => say::refusal(rt, r),
    }
}

pub fn damaged(rt: &impl Print) -> io::Result<()> {
    let block = blocks::damaged();
    print!(rt; "a damaged last region, opened forwards: ")?;
    open(rt, &block, IterationOrder::Ascending)?;
    print!(rt; "backwards: ")?;
    open(rt, &block, IterationOrder::Descending)
}
