// What crosses the C interface as lent words beside a builder: a cursor, loaded from words and stored to them, and the codes that a call answers.
// Words that are not as many as they must be are neither loaded nor stored to.
#![tactic(auto)]

ghost use Rattle.std.specs.Prelude.{◌≡◌};
ghost use Rattle.block_words.specs.Promise.{LoadsCursor, PutsCursor, LoadsStep};

use place_v2::Place;

// ---- codes: beside these, the number of a refusal

pub const GOOD: u8 = 0;

pub const BAD_WORDS: u8 = 254;

pub const DONE: u8 = 255;

// ---- how many words there are

pub const CURSOR_WORDS: usize = 6;

// ---- a cursor

pub fn cursor_in(words: &[u64]) -> Option<Place>
    ensures { LoadsCursor words.now result }
{
    if words.len() != CURSOR_WORDS {
        return None;
    }
    let order = row_words::order_in(words[0])?;
    let done = row_words::truth_in(words[4])?;
    Some(Place {
        order,
        region: words[1] as usize,
        at: words[2] as usize,
        key_len: words[3] as usize,
        done,
        number: words[5] as usize,
    })
}

// Answers whether there were as many words as it stores.
pub fn put_cursor(words: &mut [u64], p: Place) -> bool
    ensures { PutsCursor p words.old result words.new }
{
    if words.len() != CURSOR_WORDS {
        return false;
    }
    words[0] = row_words::order_word(p.order);
    words[1] = p.region as u64;
    words[2] = p.at as u64;
    words[3] = p.key_len as u64;
    words[4] = row_words::truth_word(p.done);
    words[5] = p.number as u64;
    true
}

// ---- what a call starts from: 254 is for all of it

// The cursor that a step is made with, by its words and as many bytes as the longest key has, where a row's words are lent.
pub fn step_in(cursor: &[u64], key: &[u8], row: &[u64]) -> Option<Place>
    ensures { LoadsStep cursor.now key.now row.now result }
{
    if row.len() != row_words::ROW_WORDS {
        return None;
    }
    if key.len() != basics::MAX_KEY {
        return None;
    }
    cursor_in(cursor)
}
