// One step over lent words: the cursor is its words and the bytes of its key, and the answer a code.
#![tactic(auto)]

ghost use Rattle.std.specs.Prelude.{◌≡◌, length};
ghost use Rattle.row_words.specs.Words.{cursor_count, row_count};
ghost use Rattle.block_words.specs.Exports.{StepsFlat};
ghost use Rattle.step_words.specs.Says.{PutsMoved};

use step_in_place_v2::Moved;

// Puts the cursor that moved back, and the row that was found.
fn put_moved(cursor: &mut [u64], row: &mut [u64], moved: Moved) -> u8
    requires { (length cursor.old ≡ cursor_count) × (length row.old ≡ row_count) }
    ensures { PutsMoved moved cursor.old row.old result cursor.new row.new }
{
    match moved {
        Moved::Found {
            place,
            region,
            number,
            row: found,
        } => {
            block_words::put_cursor(cursor, place);
            row_words::put_row(row, region, number, found);
            block_words::GOOD
        }
        Moved::Done(place) => {
            block_words::put_cursor(cursor, place);
            block_words::DONE
        }
    }
}

// One step in place, of any row: what is left where it is not plain.
fn next_words(
    block: &[u8],
    cursor: &mut [u64],
    key: &mut [u8],
    out: &mut [u8],
    row: &mut [u64],
) -> u8
    ensures { StepsFlat block.now cursor.old key.old out.old row.old result cursor.new key.new out.new row.new }
{
    let Some(p) = block_words::step_in(cursor, key, row) else {
        return block_words::BAD_WORDS;
    };
    match step_in_place_v2::next_in_place(key, p, block, out) {
        Ok(moved) => put_moved(cursor, row, moved),
        Err(refusal) => u8::from(refusal),
    }
}

// One step, in place: 254, 14, 18, then done, 15, 18, the row's, 18 for a descending cursor's number, 19. Good gives the row with its region and its number there,
// and its key to the start of `out`.
pub fn next(block: &[u8], cursor: &mut [u64], key: &mut [u8], out: &mut [u8], row: &mut [u64]) -> u8
    ensures { StepsFlat block.now cursor.old key.old out.old row.old result cursor.new key.new out.new row.new }
{
    // 254 before all else; so the lengths are known to the compiler where the plain step and the rest of the step are.
    if row.len() != row_words::ROW_WORDS {
        return block_words::BAD_WORDS;
    }
    if key.len() != basics::MAX_KEY {
        return block_words::BAD_WORDS;
    }
    if cursor.len() != block_words::CURSOR_WORDS {
        return block_words::BAD_WORDS;
    }
    if words_plain::plain_next(block, cursor, key, out, row) {
        return block_words::GOOD;
    }
    next_words(block, cursor, key, out, row)
}
