// What crosses the C interface of the earlier format as lent words beside a builder: a cursor, loaded from words and stored to them, and a row of a block, stored.
// Words that are not as many as they must be are neither loaded nor stored to.
#![tactic(auto)]

ghost use Rattle.std.specs.Prelude.{◌≡◌};
ghost use Rattle.cursor_words_v1.specs.Promise.{LoadsCursor, PutsCursor, PutsRow};

use block_iterator::BlockIterator;
use row_decode_v2::Row;

pub const CURSOR_WORDS: usize = 2;

// a single row's words, and the row's number in the block
pub const ROW_WORDS: usize = 14;

// ---- a cursor

pub fn cursor_in(words: &[u64]) -> Option<BlockIterator>
    ensures { LoadsCursor words.now result }
{
    if words.len() != CURSOR_WORDS {
        return None;
    }
    let order = row_words::order_in(words[0])?;
    Some(BlockIterator {
        order,
        passed: words[1] as usize,
    })
}

// Answers whether there were as many words as it stores.
pub fn put_cursor(words: &mut [u64], c: BlockIterator) -> bool
    ensures { PutsCursor c words.old result words.new }
{
    if words.len() != CURSOR_WORDS {
        return false;
    }
    words[0] = row_words::order_word(c.order);
    words[1] = c.passed as u64;
    true
}

// ---- a row, with its number in the block

pub fn put_row(words: &mut [u64], number: usize, row: Row) -> bool
    ensures { PutsRow number row words.old result words.new }
{
    if words.len() != ROW_WORDS {
        return false;
    }
    row_words::put_single(&mut words[..row_words::SINGLE_WORDS], row);
    words[13] = number as u64;
    true
}
