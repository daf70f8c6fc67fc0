// The C interface through the methods that take a cursor or a builder by value, for comparing these with the Rust. A user takes those of `slatedb_block`, which
// keep the same promises in place. Follows the methods of slatedb 0.16.0's BlockBuilderV2 and BlockIteratorV2 (Apache License 2.0), and is changed as those are.
#![tactic(auto)]

ghost use Rattle.std.specs.Prelude.{◌≡◌, length};
ghost use Rattle.layout.specs.Limits.{max_key};
ghost use Rattle.builder_words.specs.Exports.{AddsFlat};
ghost use Rattle.block_words.specs.Exports.{StepsFlat};
ghost use Rattle.by_value_words.specs.Promise.{iterator_over};
ghost use Rattle.row_words.specs.Words.{builder_count};
ghost use Rattle.compare_by_value.specs.Says.{PutsBuilder};

use block_iterator_v2::BlockIteratorV2;
use block_v2::BlockBuilderV2;
use place_v2::Place;

// ---- building a block

// Puts a builder back: its words, and its last key's bytes.
fn put_added(builder: &mut [u64], last_key: &mut [u8], b: BlockBuilderV2)
    requires { (length builder.old ≡ builder_count) × (length last_key.old ≡ max_key) }
    ensures { PutsBuilder b builder.new last_key.new }
{
    builder_words::put_state(builder, b.state);
    let _ = buf_mut::copy_in(last_key, 0, &b.last_key);
}

// Adds a row: 254, 18, 1, 2, 3, 4, 5, 6.
#[unsafe(no_mangle)]
pub extern "C" fn slatedb_builder_add_by_value(
    builder: &mut [u64],
    last_key: &mut [u8],
    data: &mut [u8],
    restarts: &mut [u16],
    key: &[u8],
    value: &[u8],
    fields: &[u64],
) -> u8
    ensures { AddsFlat builder.old last_key.old «data».old restarts.old key.now value.now fields.now result builder.new last_key.new «data».new restarts.new }
{
    let Some(offer) = builder_words::offer_in(builder, last_key, fields) else {
        return block_words::BAD_WORDS;
    };
    let before = by_value_words::builder_over(offer.state, last_key);
    let added = before.add(data, restarts, key, value, offer.row);
    match added.answer {
        Ok(()) => {
            put_added(builder, last_key, added.builder);
            block_words::GOOD
        }
        Err(refusal) => u8::from(refusal),
    }
}

// ---- reading a block

// A cursor by value, with a copy of its key.
fn iterator_over(p: Place, key: &[u8]) -> BlockIteratorV2
    requires { length key.now ≡ max_key }
    ensures { result ≡ iterator_over p key.now }
{
    let mut carried = [0; basics::MAX_KEY];
    let _ = buf_mut::copy_in(&mut carried, 0, key);
    BlockIteratorV2 {
        place: p,
        key: carried,
    }
}

// One step: 254, 14, 18, then done, 15, 18, the row's, 18 for a descending cursor's number, 19. Good gives the row with its region and its number there, and its
// key to the start of `out`.
#[unsafe(no_mangle)]
pub extern "C" fn slatedb_next_by_value(
    block: &[u8],
    cursor: &mut [u64],
    key: &mut [u8],
    out: &mut [u8],
    row: &mut [u64],
) -> u8
    ensures { StepsFlat block.now cursor.old key.old out.old row.old result cursor.new key.new out.new row.new }
{
    let Some(p) = block_words::step_in(cursor, key, row) else {
        return block_words::BAD_WORDS;
    };
    let next = iterator_over(p, key).next(block, out);
    match next.answer {
        Ok(stepped) => {
            by_value_words::put_iterator(cursor, key, next.iterator);
            let Some(found) = stepped else {
                return block_words::DONE;
            };
            row_words::put_row(row, found.region, found.number, found.row);
            block_words::GOOD
        }
        Err(refusal) => u8::from(refusal),
    }
}
