// Cursors with numbers of someone's making: those that can't be are refused with 18, and a wrong one that can be is counted on from.
use crate::{blocks, travel};
use basics::IterationOrder;
use place_v2::Place;
use std::io;

// A cursor in a region, after a row of key b.
fn inside(order: IterationOrder, region: usize, at: usize, number: usize) -> Place {
    Place {
        number,
        order,
        at,
        done: false,
        key_len: 1,
        region,
    }
}

// One step of it.
fn step(rt: &impl Print, block: &[u8], p: Place) -> io::Result<()> {
    let mut key = [b'b'; basics::MAX_KEY];
    travel::step(rt, &mut key, p, block)?;
    Ok(())
}

// Steps to the end.
fn steps(rt: &impl Print, block: &[u8], p: Place) -> io::Result<()> {
    let mut key = [b'b'; basics::MAX_KEY];
    let mut place = p;
    for _ in 0..3 {
        place = travel::step(rt, &mut key, place, block)?;
    }
    Ok(())
}

fn up(rt: &impl Print, block: &[u8]) -> io::Result<()> {
    let order = IterationOrder::Ascending;
    println!(rt; "up from 38, as rows passed 0, 4 and 3")?;
    step(rt, block, inside(order, 0, 38, 0))?;
    step(rt, block, inside(order, 0, 38, 4))?;
    step(rt, block, inside(order, 0, 38, 3))?;
    println!(rt; "as one row passed, which can be")?;
    steps(rt, block, inside(order, 0, 38, 1))?;
    println!(rt; "from 0 as one row passed, and from the end as none")?;
    step(rt, block, inside(order, 0, 0, 1))?;
    step(rt, block, inside(order, 0, 63, 0))
}

pub fn ascending(rt: &impl Print) -> io::Result<()> {
    let block = blocks::one_region();
    up(rt, &block)
}

fn down(rt: &impl Print, block: &[u8]) -> io::Result<()> {
    let order = IterationOrder::Descending;
    println!(rt; "down from 38, as rows passed 2, 4 and 3")?;
    step(rt, block, inside(order, 0, 38, 2))?;
    step(rt, block, inside(order, 0, 38, 4))?;
    step(rt, block, inside(order, 0, 38, 3))
}

fn down_damaged(rt: &impl Print, block: &[u8]) -> io::Result<()> {
    println!(rt; "a damaged row before a wrong number")?;
    step(rt, block, inside(IterationOrder::Descending, 0, 27, 9))
}

fn down_at_start(rt: &impl Print, block: &[u8]) -> io::Result<()> {
    let order = IterationOrder::Descending;
    println!(rt; "at a region's start, as rows passed 1 and 0; and at the first one's as 1")?;
    step(rt, block, inside(order, 1, 26, 1))?;
    step(rt, block, inside(order, 1, 26, 0))?;
    step(rt, block, inside(order, 0, 0, 1))
}

pub fn descending(rt: &impl Print) -> io::Result<()> {
    let one = blocks::one_region();
    down(rt, &one)?;
    let damaged = blocks::damaged();
    down_damaged(rt, &damaged)?;
    let three = blocks::three_regions();
    down_at_start(rt, &three)
}

pub fn marked(rt: &impl Print) -> io::Result<()> {
    println!(rt; "marked, as 9 rows passed")?;
    let block = blocks::three_regions();
    let mut p = inside(IterationOrder::Descending, 1, 26, 9);
    p.done = true;
    step(rt, &block, p)
}
