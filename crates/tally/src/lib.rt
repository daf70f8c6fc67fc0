// The tally of a block for the night desk: how many rows, tombstones and merges it has, and how many bytes of values they carry. Nothing of slatedb's: added.
#![tactic(auto)]

ghost use Rattle.std.specs.Prelude.{◌≡◌};
ghost use Rattle.tally.specs.Parts.{OpensRows, PassesRow};
ghost use Rattle.tally.specs.Tally.{added};
ghost use Rattle.tally.specs.Promise.{CountsRow, CountsBlock};

use basics::{IterationOrder, Refusal, ValueDeletable};
use block_iterator_v2::BlockIteratorV2;
use place_v2::Place;
use step_in_place_v2::Moved;

#[derive(Clone, Copy, Default)]
pub struct Tally {
    pub rows: u64,
    pub tombstones: u64,
    pub merges: u64,
    pub value_bytes: u64,
}

// The tally after a block: the one that came, where the block is refused.
#[derive(Clone, Copy)]
pub struct TalliedBlock {
    pub tally: Tally,
    pub answer: Result<(), Refusal>,
}

// A block that is opened for counting: the place before its first row, how many rows there are to count, which are none in a refused block, and the answer.
#[derive(Clone, Copy)]
struct Opening {
    start: Place,
    rows: usize,
    answer: Result<(), Refusal>,
}

// What a step passes: the place past the row, and what the row holds.
#[derive(Clone, Copy)]
struct Passed {
    place: Place,
    held: ValueDeletable,
}

// ---- one row

// A sum that would pass the largest number stays at it.
fn added(count: u64, n: u64) -> u64
    ensures { result ≡ added count n }
{
    count.saturating_add(n)
}

// The tally with one row more. Value bytes are those of values and merges: a tombstone adds none.
pub fn tallied(t: Tally, held: ValueDeletable) -> Tally
    ensures { CountsRow t held result }
{
    let mut r = t;
    r.rows = added(t.rows, 1);
    match held {
        ValueDeletable::Value { start: _, len } => {
            r.value_bytes = added(t.value_bytes, len as u64);
        }
        ValueDeletable::Tombstone => {
            r.tombstones = added(t.tombstones, 1);
        }
        ValueDeletable::Merge { start: _, len } => {
            r.merges = added(t.merges, 1);
            r.value_bytes = added(t.value_bytes, len as u64);
        }
    }
    r
}

// The lent tally, updated in place by one row.
pub fn tally_row(t: &mut Tally, held: ValueDeletable)
    ensures { CountsRow t.old held t.new }
{
    *t = tallied(*t, held);
}

// ---- a block

fn open(block: &[u8]) -> Opening
    ensures { OpensRows block.now result }
{
    let checked = block_check_v2::check(block);
    let opened = BlockIteratorV2::new(block, IterationOrder::Ascending);
    let start = opened.iterator.place;
    match checked {
        Ok(n) => Opening {
            start,
            rows: n,
            answer: Ok(()),
        },
        Err(refusal) => Opening {
            start,
            rows: 0,
            answer: Err(refusal),
        },
    }
}

// One step in place. The check has accepted the block where there are rows to count, so there each step finds its row.
fn step(
    carried: &mut [u8; basics::MAX_KEY],
    p: Place,
    block: &[u8],
    key: &mut [u8; basics::MAX_KEY],
) -> Passed
    ensures { PassesRow p carried.old block.now key.old result carried.new key.new }
{
    let none = Passed {
        place: p,
        held: ValueDeletable::Tombstone,
    };
    match step_in_place_v2::next_in_place(carried, p, block, key) {
        Ok(
            Moved::Found {
                place,
                region: _,
                number: _,
                row,
            },
        ) => {
            let held = row.held;
            Passed { place, held }
        }
        Ok(Moved::Done(_)) => none,
        Err(_) => none,
    }
}

// One tally that the desk lends for the whole block, and each row updates in place. A block that the check refuses leaves it as it was.
pub fn tally_block(t: &mut Tally, block: &[u8]) -> Result<(), Refusal>
    ensures { CountsBlock t.old block.now t.new result }
{
    let opened = open(block);
    let mut p = opened.start;
    let mut carried = [0; basics::MAX_KEY];
    let mut key = [0; basics::MAX_KEY];
    for _ in 0..opened.rows {
        let passed = step(&mut carried, p, block, &mut key);
        tally_row(t, passed.held);
        p = passed.place;
    }
    opened.answer
}

// The same for a desk that holds its tally by value: it is lent for the block, and had back.
pub fn tallied_block(t: Tally, block: &[u8]) -> TalliedBlock
    ensures { CountsBlock t block.now result.tally result.answer }
{
    let mut tally = t;
    let answer = tally_block(&mut tally, block);
    TalliedBlock { tally, answer }
}
