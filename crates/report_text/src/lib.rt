// The night desk's report on a block, its four counts or the number of its refusal, as the programs write it.
#![tactic(auto)]

use basics::Refusal;
use replay_text::input;
use std::io;
use tally::Tally;

const MOST_BLOCK: usize = 65536;

fn counts(rt: &impl Print, t: Tally) -> io::Result<()> {
    println!(rt; "rows {}", t.rows)?;
    println!(rt; "tombstones {}", t.tombstones)?;
    println!(rt; "merges {}", t.merges)?;
    println!(rt; "value bytes {}", t.value_bytes)
}

fn refused(rt: &impl Print, r: Refusal) -> io::Result<()> {
    let number = u8::from(r);
    println!(rt; "refused {number}")
}

// The report on one block, from a zero tally. A block that is too long is 14, as one that is too short.
pub fn report(rt: &impl Print, block: &[u8]) -> io::Result<()> {
    if MOST_BLOCK < block.len() {
        return refused(rt, Refusal::BadTrailer);
    }
    let tallied = tally::tallied_block(Tally::default(), block);
    match tallied.answer {
        Ok(()) => counts(rt, tallied.tally),
        Err(r) => refused(rt, r),
    }
}

// The report on the block that standard input holds.
pub fn report_input(rt: &(impl Input + Print)) -> io::Result<()> {
    // One byte more than a block may have, to tell one that is too long.
    let mut block = [0u8; MOST_BLOCK + 1];
    let n = input::read_full(&mut rt.reader(), &mut block)?;
    report(rt, &block[..n])
}
