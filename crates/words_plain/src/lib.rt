// A step past a plain row over lent words: what most steps of `slatedb_next` are. Where it is none, nothing
// is written, and the step of any row follows.
#![tactic(auto)]

ghost use Rattle.words_plain.specs.Promise.{StepsFlatPlain};

use basics::{IterationOrder, ValueDeletable};
use place_v2::Place;
use row_decode_v2::Row;

// Answers whether it was made.
pub fn plain_next(
    block: &[u8],
    cursor: &mut [u64],
    key: &mut [u8],
    out: &mut [u8],
    row: &mut [u64],
) -> bool
    ensures { StepsFlatPlain block.now cursor.old key.old out.old row.old result cursor.new key.new out.new row.new }
{
    if (cursor.len() != block_words::CURSOR_WORDS) | (row.len() != row_words::ROW_WORDS) {
        return false;
    }
    if (cursor[0] != 0) | (cursor[4] != 0) {
        return false;
    }
    let region = cursor[1] as usize;
    let at = cursor[2] as usize;
    let key_len = cursor[3] as usize;
    let number = cursor[5] as usize;
    let Some(r) = step_plain_v2::plain_step(key, region, at, number, key_len, block, out) else {
        return false;
    };
    let place = Place {
        order: IterationOrder::Ascending,
        region: r.region,
        at: r.next,
        key_len: r.key_len,
        done: false,
        number: r.number,
    };
    let suffix_at = at + 3;
    let found = Row {
        start: at,
        next: r.next,
        shared: r.shared,
        suffix_at,
        suffix_len: r.unshared,
        held: ValueDeletable::Value {
            start: suffix_at + r.unshared,
            len: r.value_len,
        },
        seq: r.seq,
        expire: None,
        create: None,
    };
    block_words::put_cursor(cursor, place);
    row_words::put_row(row, region, number, found);
    true
}
