// The C interface: flat functions over numbers and lent slices, for C and Rust to link. State is lent as words and key bytes, so that a step copies no key.
// Follows the methods of slatedb 0.16.0's SstRowCodecV2, BlockBuilderV2 and BlockIteratorV2 (Apache License 2.0), and is changed: each answers a code, 0 for good,
// the number of a refusal, 254 for words that mean nothing, which is tested first, and 255 for "done"; what else it answers goes to lent words.
#![tactic(auto)]

ghost use Rattle.block_rows_v2.specs.Promise.{RowsFlat};
ghost use Rattle.builder_words.specs.Exports.{AddsFlat};
ghost use Rattle.block_words.specs.Exports.{StepsFlat};
ghost use Rattle.seek_words.specs.Promise.{SeeksFlat};
ghost use Rattle.slatedb_block.specs.Promise.{EncodesFlat, DecodesFlat, MakesFlat, FitsFlat, EmptiesFlat, BuildsFlat, ChecksFlat, OpensFlat, TellsFlat};

// ---- one row

// Writes a row after a key of `previous_len` bytes, of which it shares the first `shared`: 254, 13, 1, 2, 3, 6. Good sets `count` to its bytes.
#[unsafe(no_mangle)]
pub extern "C" fn slatedb_encode(
    output: &mut [u8],
    previous_len: usize,
    shared: usize,
    key_suffix: &[u8],
    value: &[u8],
    fields: &[u64],
    count: &mut u64,
) -> u8
    ensures { EncodesFlat previous_len shared key_suffix.now value.now fields.now output.old count.old result output.new count.new }
{
    let Some(row) = row_words::fields_in(fields) else {
        return block_words::BAD_WORDS;
    };
    match row_encode_v2::encode(output, previous_len, shared, key_suffix, value, row) {
        Ok(n) => {
            *count = n as u64;
            block_words::GOOD
        }
        Err(refusal) => u8::from(refusal),
    }
}

// Reads the row that starts the input, after a key of `previous_len` bytes: 254, 9, 10, 13, 1, 2, 3, 11, 12.
#[unsafe(no_mangle)]
pub extern "C" fn slatedb_decode(input: &[u8], previous_len: usize, row: &mut [u64]) -> u8
    ensures { DecodesFlat input.now previous_len row.old result row.new }
{
    if row.len() != row_words::SINGLE_WORDS {
        return block_words::BAD_WORDS;
    }
    match row_decode_v2::decode(input, previous_len) {
        Ok(r) => {
            row_words::put_single(row, r);
            block_words::GOOD
        }
        Err(refusal) => u8::from(refusal),
    }
}

// ---- building a block

// A new builder: 254, 8.
#[unsafe(no_mangle)]
pub extern "C" fn slatedb_builder_new(
    builder: &mut [u64],
    block_size: usize,
    restart_interval: usize,
) -> u8
    ensures { MakesFlat builder.old block_size restart_interval result builder.new }
{
    if builder.len() != builder_words::BUILDER_WORDS {
        return block_words::BAD_WORDS;
    }
    let new = state_v2::new_state(block_size, restart_interval);
    match new.answer {
        Ok(()) => {
            builder_words::put_state(builder, new.state);
            block_words::GOOD
        }
        Err(refusal) => u8::from(refusal),
    }
}

// Whether the row would fit: 254, 18, 1, 2, 3, and 4 for "no".
#[unsafe(no_mangle)]
pub extern "C" fn slatedb_builder_would_fit(
    builder: &[u64],
    last_key: &[u8],
    data_len: usize,
    restarts_len: usize,
    key: &[u8],
    value: &[u8],
    fields: &[u64],
) -> u8
    ensures { FitsFlat builder.now last_key.now data_len restarts_len key.now value.now fields.now result }
{
    let Some(offer) = builder_words::offer_in(builder, last_key, fields) else {
        return block_words::BAD_WORDS;
    };
    let fit = build_in_place_v2::would_fit_in_place(
        last_key,
        offer.state,
        data_len,
        restarts_len,
        key,
        value,
        offer.row,
    );
    match fit {
        Ok(()) => block_words::GOOD,
        Err(refusal) => u8::from(refusal),
    }
}

// Adds a row, in place: 254, 18, 1, 2, 3, 4, 5, 6.
#[unsafe(no_mangle)]
pub extern "C" fn slatedb_builder_add(
    builder: &mut [u64],
    last_key: &mut [u8],
    data: &mut [u8],
    restarts: &mut [u16],
    key: &[u8],
    value: &[u8],
    fields: &[u64],
) -> u8
    ensures { AddsFlat builder.old last_key.old «data».old restarts.old key.now value.now fields.now result builder.new last_key.new «data».new restarts.new }
{
    add_words::add(builder, last_key, data, restarts, key, value, fields)
}

// Whether there is no row: 254.
#[unsafe(no_mangle)]
pub extern "C" fn slatedb_builder_is_empty(builder: &[u64], empty: &mut u64) -> u8
    ensures { EmptiesFlat builder.now empty.old result empty.new }
{
    let Some(s) = builder_words::state_in(builder) else {
        return block_words::BAD_WORDS;
    };
    *empty = row_words::truth_word(state_v2::is_empty_state(s));
    block_words::GOOD
}

// Puts the trailer after the rows: 254, 18, 7, 6. The block is the first `count` bytes of `data`.
#[unsafe(no_mangle)]
pub extern "C" fn slatedb_builder_build(
    builder: &[u64],
    data: &mut [u8],
    restarts: &[u16],
    count: &mut u64,
) -> u8
    ensures { BuildsFlat builder.now «data».old restarts.now count.old result «data».new count.new }
{
    let Some(s) = builder_words::state_in(builder) else {
        return block_words::BAD_WORDS;
    };
    match finish_in_place_v2::build_in_place(s, data, restarts) {
        Ok(len) => {
            *count = len as u64;
            block_words::GOOD
        }
        Err(refusal) => u8::from(refusal),
    }
}

// ---- reading a block

// Checks a whole block: 14, 15, then row by row 9 to 13, 1, 2, 3, 16, 17. Good sets `count` to its rows.
#[unsafe(no_mangle)]
pub extern "C" fn slatedb_check(block: &[u8], count: &mut u64) -> u8
    ensures { ChecksFlat block.now count.old result count.new }
{
    match block_check_v2::check(block) {
        Ok(rows) => {
            *count = rows as u64;
            block_words::GOOD
        }
        Err(refusal) => u8::from(refusal),
    }
}

// A cursor before the first row: 254, 14, 15; or after the last one, whose region is read: then its rows' 9 to 13, 1, 2, 3, 16.
#[unsafe(no_mangle)]
pub extern "C" fn slatedb_open(block: &[u8], order: u64, cursor: &mut [u64]) -> u8
    ensures { OpensFlat block.now order cursor.old result cursor.new }
{
    if cursor.len() != block_words::CURSOR_WORDS {
        return block_words::BAD_WORDS;
    }
    let Some(o) = row_words::order_in(order) else {
        return block_words::BAD_WORDS;
    };
    let opened = place_v2::open_place(block, o);
    match opened.answer {
        Ok(()) => {
            block_words::put_cursor(cursor, opened.place);
            block_words::GOOD
        }
        Err(refusal) => u8::from(refusal),
    }
}

// Whether the cursor is known to have no row left, ascending by its position or its mark, descending by its mark alone: 254, 14.
#[unsafe(no_mangle)]
pub extern "C" fn slatedb_is_empty(block: &[u8], cursor: &[u64], empty: &mut u64) -> u8
    ensures { TellsFlat block.now cursor.now empty.old result empty.new }
{
    let Some(p) = block_words::cursor_in(cursor) else {
        return block_words::BAD_WORDS;
    };
    match place_v2::is_empty_place(p, block) {
        Ok(b) => {
            *empty = row_words::truth_word(b);
            block_words::GOOD
        }
        Err(refusal) => u8::from(refusal),
    }
}

// One step, in place: 254, 14, 18, then done, 15, 18, the row's, 18 for a descending cursor's number, 19. Good gives the row with its region and its number there,
// and its key to the start of `out`.
#[unsafe(no_mangle)]
pub extern "C" fn slatedb_next(
    block: &[u8],
    cursor: &mut [u64],
    key: &mut [u8],
    out: &mut [u8],
    row: &mut [u64],
) -> u8
    ensures { StepsFlat block.now cursor.old key.old out.old row.old result cursor.new key.new out.new row.new }
{
    step_words::next(block, cursor, key, out, row)
}

// Many steps, in place, as many as `rows` has whole rows' words for: 254, then what the first step answers, unless it finds a row. Good gives `count` rows, their
// keys one after another from the start of `keys`; a step that finds no row, or a key that does not fit what is left of `keys`, ends the call before it.
#[unsafe(no_mangle)]
pub extern "C" fn slatedb_next_rows(
    block: &[u8],
    cursor: &mut [u64],
    key: &mut [u8],
    keys: &mut [u8],
    rows: &mut [u64],
    count: &mut u64,
) -> u8
    ensures { RowsFlat block.now cursor.old key.old keys.old rows.old count.old result cursor.new key.new keys.new rows.new count.new }
{
    block_rows_v2::next_rows(block, cursor, key, keys, rows, count)
}

// Moves the cursor to the target, in its own order: 254, 14, and what the search and the walk meet. `reads`: how many restart keys the search read, set for done too.
#[unsafe(no_mangle)]
pub extern "C" fn slatedb_seek(
    block: &[u8],
    target: &[u8],
    cursor: &mut [u64],
    key: &mut [u8],
    reads: &mut u64,
) -> u8
    ensures { SeeksFlat block.now target.now cursor.old key.old reads.old result cursor.new key.new reads.new }
{
    seek_words::seek(block, target, cursor, key, reads)
}
