// The C interface of the earlier format: flat functions over numbers and lent slices, for C and Rust to link. State is lent as words and key bytes.
// Follows the methods of slatedb 0.16.0's SstRowCodecV0, BlockBuilderV1 and BlockIterator (Apache License 2.0), and is changed: each answers a code, 0 for good,
// the number of a refusal, 254 for words that mean nothing, which is tested first, and 255 for "done"; what else it answers goes to lent words.
#![tactic(auto)]

ghost use Rattle.std.specs.Prelude.{◌≡◌, cond, length};
ghost use Rattle.layout_v1.specs.Seek.{sought_is};
ghost use Rattle.block_iterator.specs.Says.{view_of};
ghost use Rattle.row_words.specs.Words.{done_code};
ghost use Rattle.cursor_words_v1.specs.Words.{cursor_count};
ghost use Rattle.slatedb_block_v1.specs.Promise.{SizesFlat, EncodesFlat, DecodesFlat, MakesFlat, FitsFlat, AddsFlat, EmptiesFlat, BuildsFlat, ChecksFlat, OpensFlat, TellsFlat, StepsFlat, SeeksFlat, SeeksAs, landed};

use block_iterator::BlockIterator;

// ---- codes: beside these, the number of a refusal

const GOOD: u8 = 0;

const BAD_WORDS: u8 = 254;

const DONE: u8 = 255;

// ---- one row

// A row's size, from the lengths of its share, its suffix and its value alone: 254, 1, 2, 3. Good sets `count` to its bytes.
#[unsafe(no_mangle)]
pub extern "C" fn slatedb_v1_encoded_size(
    shared: usize,
    key_suffix_len: usize,
    value_len: usize,
    fields: &[u64],
    count: &mut u64,
) -> u8
    ensures { SizesFlat shared key_suffix_len value_len fields.now count.old result count.new }
{
    let Some(row) = row_words::fields_in(fields) else {
        return BAD_WORDS;
    };
    let sized = row_size_v0::encoded_size(
        shared,
        key_suffix_len,
        row.kind,
        value_len,
        row.expire,
        row.create,
    );
    match sized {
        Ok(n) => {
            *count = n as u64;
            GOOD
        }
        Err(refusal) => u8::from(refusal),
    }
}

// Writes a row after a first key of `first_key_len` bytes, of which it shares the first `shared`: 254, 13, 1, 2, 3, 6. Good sets `count` to its bytes.
#[unsafe(no_mangle)]
pub extern "C" fn slatedb_v1_encode(
    output: &mut [u8],
    first_key_len: usize,
    shared: usize,
    key_suffix: &[u8],
    value: &[u8],
    fields: &[u64],
    count: &mut u64,
) -> u8
    ensures { EncodesFlat first_key_len shared key_suffix.now value.now fields.now output.old count.old result output.new count.new }
{
    let Some(row) = row_words::fields_in(fields) else {
        return BAD_WORDS;
    };
    match row_encode_v0::encode(output, first_key_len, shared, key_suffix, value, row) {
        Ok(n) => {
            *count = n as u64;
            GOOD
        }
        Err(refusal) => u8::from(refusal),
    }
}

// Reads the row that starts the input, after a first key of `first_key_len` bytes: 254, 9, 13, 1, 2, 9, 11, 12, 9, 3, 9.
#[unsafe(no_mangle)]
pub extern "C" fn slatedb_v1_decode(input: &[u8], first_key_len: usize, single: &mut [u64]) -> u8
    ensures { DecodesFlat input.now first_key_len single.old result single.new }
{
    if single.len() != row_words::SINGLE_WORDS {
        return BAD_WORDS;
    }
    match row_decode_v0::decode(input, first_key_len) {
        Ok(r) => {
            row_words::put_single(single, r);
            GOOD
        }
        Err(refusal) => u8::from(refusal),
    }
}

// ---- building a block

// A new builder: 254, 8.
#[unsafe(no_mangle)]
pub extern "C" fn slatedb_v1_builder_new(builder: &mut [u64], block_size: usize) -> u8
    ensures { MakesFlat builder.old block_size result builder.new }
{
    if builder.len() != builder_words_v1::BUILDER_WORDS {
        return BAD_WORDS;
    }
    let new = state_v1::new_state(block_size);
    match new.answer {
        Ok(()) => {
            builder_words_v1::put_state(builder, new.state);
            GOOD
        }
        Err(refusal) => u8::from(refusal),
    }
}

// Whether the row would fit: 254, 18, 1, 2, 3, and 4 for "no".
#[unsafe(no_mangle)]
pub extern "C" fn slatedb_v1_builder_would_fit(
    builder: &[u64],
    first_key: &[u8],
    data_len: usize,
    offsets_len: usize,
    key: &[u8],
    value: &[u8],
    fields: &[u64],
) -> u8
    ensures { FitsFlat builder.now first_key.now data_len offsets_len key.now value.now fields.now result }
{
    let Some(offer) = builder_words_v1::offer_in(builder, first_key, fields) else {
        return BAD_WORDS;
    };
    let fit = build_in_place_v1::would_fit_in_place(
        first_key,
        offer.state,
        data_len,
        offsets_len,
        key,
        value,
        offer.row,
    );
    match fit {
        Ok(()) => GOOD,
        Err(refusal) => u8::from(refusal),
    }
}

// Adds a row, in place: 254, 18, 1, 2, 3, 4, 5, 6.
#[unsafe(no_mangle)]
pub extern "C" fn slatedb_v1_builder_add(
    builder: &mut [u64],
    first_key: &mut [u8],
    data: &mut [u8],
    offsets: &mut [u16],
    key: &[u8],
    value: &[u8],
    fields: &[u64],
) -> u8
    ensures { AddsFlat builder.old first_key.old «data».old offsets.old key.now value.now fields.now result builder.new first_key.new «data».new offsets.new }
{
    let Some(offer) = builder_words_v1::offer_in(builder, first_key, fields) else {
        return BAD_WORDS;
    };
    let grown = build_in_place_v1::add_in_place(
        first_key,
        offer.state,
        data,
        offsets,
        key,
        value,
        offer.row,
    );
    match grown.answer {
        Ok(()) => {
            builder_words_v1::put_state(builder, grown.state);
            GOOD
        }
        Err(refusal) => u8::from(refusal),
    }
}

// Whether there is no row: 254.
#[unsafe(no_mangle)]
pub extern "C" fn slatedb_v1_builder_is_empty(builder: &[u64], empty: &mut u64) -> u8
    ensures { EmptiesFlat builder.now empty.old result empty.new }
{
    let Some(s) = builder_words_v1::state_in(builder) else {
        return BAD_WORDS;
    };
    *empty = row_words::truth_word(state_v1::is_empty_state(s));
    GOOD
}

// Puts the trailer after the rows: 254, 18, 7, 6. The block is the first `count` bytes of `data`.
#[unsafe(no_mangle)]
pub extern "C" fn slatedb_v1_builder_build(
    builder: &[u64],
    data: &mut [u8],
    offsets: &[u16],
    count: &mut u64,
) -> u8
    ensures { BuildsFlat builder.now «data».old offsets.now count.old result «data».new count.new }
{
    let Some(s) = builder_words_v1::state_in(builder) else {
        return BAD_WORDS;
    };
    match finish_in_place_v1::build_in_place(s, data, offsets) {
        Ok(len) => {
            *count = len as u64;
            GOOD
        }
        Err(refusal) => u8::from(refusal),
    }
}

// ---- reading a block

// Checks a whole block: 14, 15, then row by row any of 9, 13, 1, 2, 11, 12, 3, 16, 20, 17. Good sets `count` to its rows.
#[unsafe(no_mangle)]
pub extern "C" fn slatedb_v1_check(block: &[u8], count: &mut u64) -> u8
    ensures { ChecksFlat block.now count.old result count.new }
{
    match block_check_v1::check(block) {
        Ok(rows) => {
            *count = rows as u64;
            GOOD
        }
        Err(refusal) => u8::from(refusal),
    }
}

// A cursor that has passed no row: 254, 14, 15, then any of 9, 13, 1, 2, 16 of the first key.
#[unsafe(no_mangle)]
pub extern "C" fn slatedb_v1_open(block: &[u8], order: u64, cursor: &mut [u64]) -> u8
    ensures { OpensFlat block.now order cursor.old result cursor.new }
{
    if cursor.len() != cursor_words_v1::CURSOR_WORDS {
        return BAD_WORDS;
    }
    let Some(o) = row_words::order_in(order) else {
        return BAD_WORDS;
    };
    let opened = BlockIterator::new(block, o);
    match opened.answer {
        Ok(()) => {
            cursor_words_v1::put_cursor(cursor, opened.iterator);
            GOOD
        }
        Err(refusal) => u8::from(refusal),
    }
}

// Whether all rows are passed: 254, 14.
#[unsafe(no_mangle)]
pub extern "C" fn slatedb_v1_is_empty(block: &[u8], cursor: &[u64], empty: &mut u64) -> u8
    ensures { TellsFlat block.now cursor.now empty.old result empty.new }
{
    let Some(c) = cursor_words_v1::cursor_in(cursor) else {
        return BAD_WORDS;
    };
    match c.is_empty(block) {
        Ok(b) => {
            *empty = row_words::truth_word(b);
            GOOD
        }
        Err(refusal) => u8::from(refusal),
    }
}

// One step: 254, 14, 18, done, then the first key's, the row's, and 19. Good gives the row with its number, and its key to the start of `out`.
#[unsafe(no_mangle)]
pub extern "C" fn slatedb_v1_next(
    block: &[u8],
    cursor: &mut [u64],
    out: &mut [u8],
    row: &mut [u64],
) -> u8
    ensures { StepsFlat block.now cursor.old out.old row.old result cursor.new out.new row.new }
{
    if row.len() != cursor_words_v1::ROW_WORDS {
        return BAD_WORDS;
    }
    let Some(c) = cursor_words_v1::cursor_in(cursor) else {
        return BAD_WORDS;
    };
    let next = c.next(block, out);
    match next.answer {
        Ok(stepped) => {
            cursor_words_v1::put_cursor(cursor, next.iterator);
            let Some(found) = stepped else {
                return DONE;
            };
            cursor_words_v1::put_row(row, found.number, found.row);
            GOOD
        }
        Err(refusal) => u8::from(refusal),
    }
}

// The code of a seek that landed.
fn landed_code(over: bool) -> u8
    ensures { result ≡ cond over done_code 0 }
{
    if over { DONE } else { GOOD }
}

// Puts the cursor that was sought back, and how many keys the search read; done if all rows are passed there.
fn put_sought(block: &[u8], cursor: &mut [u64], reads: &mut u64, c: BlockIterator, n: usize) -> u8
    requires { length cursor.old ≡ cursor_count }
    ensures { SeeksAs (landed block.now (sought_is (view_of c) n)) cursor.old reads.old result cursor.new reads.new }
{
    match c.is_empty(block) {
        Ok(over) => {
            cursor_words_v1::put_cursor(cursor, c);
            *reads = n as u64;
            landed_code(over)
        }
        Err(refusal) => u8::from(refusal),
    }
}

// Moves the cursor to the target, in its own order: 254, 14, and what the search meets; done if no row is left there. `reads`: how many keys the search read, set for
// done too.
#[unsafe(no_mangle)]
pub extern "C" fn slatedb_v1_seek(
    block: &[u8],
    target: &[u8],
    cursor: &mut [u64],
    reads: &mut u64,
) -> u8
    ensures { SeeksFlat block.now target.now cursor.old reads.old result cursor.new reads.new }
{
    let Some(c) = cursor_words_v1::cursor_in(cursor) else {
        return BAD_WORDS;
    };
    let sought = c.seek(block, target);
    match sought.answer {
        Ok(n) => put_sought(block, cursor, reads, sought.iterator, n),
        Err(refusal) => u8::from(refusal),
    }
}
