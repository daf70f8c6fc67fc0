// What every crate's answers and settings are made of: refusals, kinds of value, times, orders, and the numbers with an edge.
// Follows slatedb 0.16.0, src/error.rs, src/types.rs and src/iter.rs (Apache License 2.0), and is changed: an answer names the
// place of a value's bytes and holds none, an absent time is a case of its own, and each refusal has a number.
#![tactic(auto)]

ghost use Rattle.basics.specs.Promise.{Numbered, RefusalOf, TellsWrong};

// Why a call is refused. Each refusal has its number.
#[derive(Clone, Copy, Debug, PartialEq, Eq)]
pub enum Refusal {
    // the key is empty
    EmptyKey = 1,
    // the key has over 4,096 bytes
    KeyTooLong = 2,
    // the value, or its length, is over 65,535
    ValueTooLong = 3,
    // the row doesn't fit into the block
    RowDoesNotFit = 4,
    // a restart would lie past 65,535
    RestartTooFar = 5,
    // a lent buffer can't hold what is to be written
    BufferTooSmall = 6,
    // a block is built with no row
    EmptyBlock = 7,
    // the block size or the interval is outside its limits
    BadSettings = 8,
    // the input ends inside a row
    InputEnds = 9,
    // the fifth byte of a varint is above 15, or it has more bytes than its number needs
    VarintTooLarge = 10,
    // the flags byte is 16 or more
    UnknownFlags = 11,
    // the flags set tombstone and merge together
    TombstoneWithMerge = 12,
    // the share is longer than the key before, or not 0 at a restart
    BadShare = 13,
    // the block has under 2 bytes, its count is 0, or its trailer is longer than the block
    BadTrailer = 14,
    // the first restart is not 0, the offsets don't rise, or one is not below the data's length
    BadOffset = 15,
    // a row inside the data runs past the next restart
    RowPastRegion = 16,
    // a key is smaller than the one before, or equal with a sequence number that is not smaller
    KeyFalls = 17,
    // the cursor's or the builder's state can't belong to these buffers
    BadState = 18,
    // the lent key buffer is shorter than the key
    KeyBufferTooShort = 19,
    // a row of the earlier format ends before the next one starts, or before the data's end
    RowEndsEarly = 20,
}

impl From<Refusal> for u8 {
    fn from(refusal: Refusal) -> u8
        ensures { Numbered refusal result }
    {
        refusal as u8
    }
}

// The refusal of an answer that is known to be one.
pub fn refusal_of<T: Copy>(answer: Result<T, Refusal>) -> Refusal
    ensures { RefusalOf answer result }
{
    match answer {
        Err(refusal) => refusal,
        Ok(_) => Refusal::BadState,
    }
}

// What was read, and the place after it.
#[derive(Clone, Copy)]
pub struct Read<T> {
    pub value: T,
    pub next: usize,
}

// In an answer: where the value's bytes stand. A tombstone has no bytes, so it has no place.
#[derive(Clone, Copy)]
pub enum ValueDeletable {
    Value { start: usize, len: usize },
    Tombstone,
    Merge { start: usize, len: usize },
}

// The kind of value that is offered, with its bytes beside it.
#[derive(Clone, Copy)]
pub enum Kind {
    Value,
    Tombstone,
    Merge,
}

#[derive(Clone, Copy)]
pub enum IterationOrder {
    Ascending,
    Descending,
}

pub const MAX_KEY: usize = 4096;

pub const MAX_VALUE: usize = 65535;

pub const MAX_BLOCK: usize = 131072;

pub const MAX_INTERVAL: usize = 1024;

pub const DEFAULT_RESTART_INTERVAL: usize = 16;

pub const MAX_OFFSET: usize = 65535;
// 5,042 restarts of at least 13 bytes are the most that offsets up to 65,535 reach.
pub const MAX_RESTARTS: usize = 5042;

pub const LEAST_ROW: usize = 12;

// Whether so many rows can't have been passed in so many bytes of a region: none past its start, or more than a twelfth of them. The product of a number that came
// from outside may wrap, so it is the bytes that are divided, by a constant: no division is left of it in the code that runs.
pub fn wrong_after(passed: usize, number: usize) -> bool
    ensures { TellsWrong passed number result }
{
    if number == 0 {
        return 0 < passed;
    }
    passed / LEAST_ROW < number
}
