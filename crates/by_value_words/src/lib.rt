// A builder and a cursor by value, beside lent words: what only the functions by value use.
#![tactic(auto)]

ghost use Rattle.by_value_words.specs.Promise.{MakesOver, PutsIterator};

use block_iterator_v2::BlockIteratorV2;
use block_v2::BlockBuilderV2;
use state_v2::State;

// A builder by value, with a copy of its last key: of none, where it is too long to be one.
pub fn builder_over(s: State, last_key: &[u8]) -> BlockBuilderV2
    ensures { MakesOver s last_key.now result }
{
    let mut key = [0; basics::MAX_KEY];
    let _ = buf_mut::copy_in(&mut key, 0, last_key);
    BlockBuilderV2 {
        state: s,
        last_key: key,
    }
}

// Stores a cursor that came by value: its words, and its key's bytes. Answers whether both were as many as they must be.
pub fn put_iterator(cursor: &mut [u64], key: &mut [u8], c: BlockIteratorV2) -> bool
    ensures { PutsIterator c cursor.old key.old result cursor.new key.new }
{
    if cursor.len() != block_words::CURSOR_WORDS {
        return false;
    }
    if key.len() != basics::MAX_KEY {
        return false;
    }
    block_words::put_cursor(cursor, c.place);
    let _ = buf_mut::copy_in(key, 0, &c.key);
    true
}
