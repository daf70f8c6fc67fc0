// One seek over lent words: the cursor is its words and the bytes of its key, and the answer a code.
#![tactic(auto)]

ghost use Rattle.std.specs.Prelude.{◌≡◌, length};
ghost use Rattle.row_words.specs.Words.{cursor_count};
ghost use Rattle.seek_words.specs.Says.{PutsFound};
ghost use Rattle.seek_words.specs.Promise.{SeeksFlat};

use seek_in_place_v2::Found;

// Puts the cursor that was sought back, and how many restart keys the search read.
fn put_found(cursor: &mut [u64], reads: &mut u64, found: Found) -> u8
    requires { length cursor.old ≡ cursor_count }
    ensures { PutsFound found cursor.old reads.old result cursor.new reads.new }
{
    match found {
        Found::Landed { place, reads: n } => {
            block_words::put_cursor(cursor, place);
            *reads = n as u64;
            block_words::GOOD
        }
        Found::Done { place, reads: n } => {
            block_words::put_cursor(cursor, place);
            *reads = n as u64;
            block_words::DONE
        }
    }
}

// Moves the cursor to the target, in its own order: 254, 14, and what the search and the walk meet. `reads`: how many restart keys the search read, set for done too.
pub fn seek(block: &[u8], target: &[u8], cursor: &mut [u64], key: &mut [u8], reads: &mut u64) -> u8
    ensures { SeeksFlat block.now target.now cursor.old key.old reads.old result cursor.new key.new reads.new }
{
    if key.len() != basics::MAX_KEY {
        return block_words::BAD_WORDS;
    }
    let Some(p) = block_words::cursor_in(cursor) else {
        return block_words::BAD_WORDS;
    };
    match seek_in_place_v2::seek_in_place(key, p, block, target) {
        Ok(found) => put_found(cursor, reads, found),
        Err(refusal) => u8::from(refusal),
    }
}
