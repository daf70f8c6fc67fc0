// What crosses the C interface as lent words, below cursors and builders: whether something is so, an order, a row's fields and a row, loaded from words and
// stored to them.
// Words that are not as many as they must be are neither loaded nor stored to.
#![tactic(auto)]

ghost use Rattle.std.specs.Prelude.{◌≡◌};
ghost use Rattle.basics.specs.Says.{says_kind, says_time};
ghost use Rattle.row_words.specs.Words.{kind_in, time_in};
ghost use Rattle.row_words.specs.Says.{says_word, held_from, time_words_of};
ghost use Rattle.row_words.specs.Promise.{LoadsTruth, TellsTruth, LoadsOrder, TellsOrder, LoadsFields, PutsSingle, PutsRow};

use basics::{IterationOrder, Kind, ValueDeletable};
use row_decode_v2::Row;
use row_flags::RowFields;

const FIELDS_WORDS: usize = 6;

// a row by itself
pub const SINGLE_WORDS: usize = 13;

// a row of a block
pub const ROW_WORDS: usize = 15;

// A builder's state, and the row that is offered to it.
#[derive(Clone, Copy)]
pub struct Offer<S> {
    pub state: S,
    pub row: RowFields,
}

// A value's kind and place, as words.
#[derive(Clone, Copy)]
struct HeldWords {
    kind: u64,
    start: u64,
    len: u64,
}

// Whether there is a time, and its bits.
#[derive(Clone, Copy)]
struct TimeWords {
    has: u64,
    bits: u64,
}

pub fn truth_in(word: u64) -> Option<bool>
    ensures { LoadsTruth word result }
{
    match word {
        0 => Some(false),
        1 => Some(true),
        _ => None, // neither no nor yes
    }
}

pub fn truth_word(b: bool) -> u64
    ensures { TellsTruth b result }
{
    u64::from(b)
}

// The order of a walk over a block's rows.
pub fn order_in(word: u64) -> Option<IterationOrder>
    ensures { LoadsOrder word result }
{
    match word {
        0 => Some(IterationOrder::Ascending),
        1 => Some(IterationOrder::Descending),
        _ => None, // no order
    }
}

pub fn order_word(order: IterationOrder) -> u64
    ensures { TellsOrder order result }
{
    match order {
        IterationOrder::Ascending => 0,
        IterationOrder::Descending => 1,
    }
}

fn kind_in(word: u64) -> Option<Kind>
    ensures { says_word says_kind result ≡ kind_in word }
{
    match word {
        2 => Some(Kind::Merge),
        0 => Some(Kind::Value),
        1 => Some(Kind::Tombstone),
        _ => None,
    }
}

fn time_in(has: u64, bits: u64) -> Option<Option<i64>>
    ensures { says_word says_time result ≡ time_in has bits }
{
    let there = truth_in(has)?;
    if there {
        return Some(Some(numbers::from_bits(bits)));
    }
    Some(None)
}

pub fn fields_in(words: &[u64]) -> Option<RowFields>
    ensures { LoadsFields words.now result }
{
    if words.len() != FIELDS_WORDS {
        return None;
    }
    let kind = kind_in(words[0])?;
    let expire = time_in(words[2], words[3])?;
    let create = time_in(words[4], words[5])?;
    Some(RowFields {
        kind,
        seq: words[1],
        expire,
        create,
    })
}

fn held_words(held: ValueDeletable) -> HeldWords
    ensures { result ≡ held_from held }
{
    match held {
        ValueDeletable::Value { start, len } => HeldWords {
            kind: 0,
            start: start as u64,
            len: len as u64,
        },
        ValueDeletable::Tombstone => HeldWords {
            kind: 1,
            start: 0,
            len: 0,
        },
        ValueDeletable::Merge { start, len } => HeldWords {
            kind: 2,
            start: start as u64,
            len: len as u64,
        },
    }
}

fn time_words(time: Option<i64>) -> TimeWords
    ensures { result ≡ time_words_of time }
{
    match time {
        None => TimeWords { has: 0, bits: 0 },
        Some(z) => TimeWords {
            has: 1,
            bits: numbers::to_bits(z),
        },
    }
}

pub fn put_single(words: &mut [u64], row: Row) -> bool
    ensures { PutsSingle row words.old result words.new }
{
    if words.len() != SINGLE_WORDS {
        return false;
    }
    let h = held_words(row.held);
    let e = time_words(row.expire);
    let c = time_words(row.create);
    words[0] = row.start as u64;
    words[1] = row.next as u64;
    words[2] = row.shared as u64;
    words[3] = row.suffix_at as u64;
    words[4] = row.suffix_len as u64;
    words[5] = h.kind;
    words[6] = h.start;
    words[7] = h.len;
    words[8] = row.seq;
    words[9] = e.has;
    words[10] = e.bits;
    words[11] = c.has;
    words[12] = c.bits;
    true
}

// A row with the numbers that name it: its region's, and its own there.
pub fn put_row(words: &mut [u64], region: usize, number: usize, row: Row) -> bool
    ensures { PutsRow region number row words.old result words.new }
{
    if words.len() != ROW_WORDS {
        return false;
    }
    put_single(&mut words[..SINGLE_WORDS], row);
    words[13] = region as u64;
    words[14] = number as u64;
    true
}
