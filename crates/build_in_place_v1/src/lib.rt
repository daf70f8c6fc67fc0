// A V1 block's builder as its numbers, beside the lent bytes of its first key: whether a row would fit, and a row added.
// The rows' bytes and their offsets are in buffers that are lent too.
// Follows slatedb 0.16.0, src/format/block.rs (Apache License 2.0), and is changed: the numbers come in and go out by value, rows go into the free rest of the lent
// data buffer, the first key's bytes are worked on where they lie, and what the row, the room or the numbers themselves can break is a refusal. A refused call
// changes nothing.
#![tactic(auto)]

ghost use Rattle.std.specs.Prelude.{◌≡◌, cond, [], ◌≤◌, ◌+◌, ◌*◌, eqb, length, take, drop};
ghost use Rattle.layout.specs.Key.{common};
ghost use Rattle.layout.specs.Limits.{max_key, max_block, max_restarts};
ghost use Rattle.layout.specs.Place.{splice};
ghost use Rattle.layout.specs.Res.{whether};
ghost use Rattle.layout.specs.Laws.Splice.{Wrote};
ghost use Rattle.layout_v1.specs.Row.{row_bytes};
ghost use Rattle.layout_v1.specs.Builder.{would_fit, add};
ghost use Rattle.row_flags.specs.Says.{fields_from};
ghost use Rattle.state_v1.specs.Says.{view_from};
ghost use Rattle.build_in_place_v1.specs.Plan.{SizesRow, Plans, Tested, Fitting, Grew};
ghost use Rattle.build_in_place_v1.specs.Promise.{FitsInPlace, AddsInPlace};

use basics::Refusal;
use row_flags::RowFields;
use state_v1::State;

const SIZEOF_U16: usize = 2;

// A refused row gives the numbers as they came.
#[derive(Clone, Copy)]
pub struct Grown {
    pub state: State,
    pub answer: Result<(), Refusal>,
}

// What the tests of a row found: how much of the first key it shares, and how large the block is with it, its offset too.
#[derive(Clone, Copy)]
struct Planned {
    shared: usize,
    size: usize,
}

fn size(used: usize, rows: usize) -> usize
    requires { (used ≤ max_block) × (rows ≤ max_restarts) }
    ensures { (result ≡ used + 2 * rows + 2) × (result ≤ max_block + 2 * max_restarts + 2) }
{
    SIZEOF_U16 + rows * SIZEOF_U16 + used
}

// ---- a row, tested

// How many bytes of the first key are not written again: row 0 shares nothing, any other its whole common prefix.
fn compute_prefix(rows: usize, first_key: &[u8], first_len: usize, key: &[u8]) -> usize
    requires { first_len ≤ length first_key.now }
    ensures { result ≡ common (cond (eqb rows 0) [] (take first_len first_key.now)) key.now }
{
    if rows == 0 {
        return 0;
    }
    keys::common_prefix(&first_key[..first_len], key)
}

// The encoded size of a row with a key of this length, of which the first key gives `shared` bytes, from lengths alone: 1, 2, 3.
fn encoded_size(
    shared: usize,
    key_len: usize,
    value_len: usize,
    row: RowFields,
) -> Result<usize, Refusal>
    requires { shared ≤ key_len }
    ensures { SizesRow shared key_len value_len row result }
{
    let kind = row.kind;
    let expire = row.expire;
    let create = row.create;
    row_size_v0::encoded_size(shared, key_len - shared, kind, value_len, expire, create)
}

// The fit question, with what was found on the way: 18, 1, 2, 3, 4. Of the value its length is enough, and nothing is written.
fn plan_row(
    s: State,
    first_key: &[u8; basics::MAX_KEY],
    data_len: usize,
    places_len: usize,
    key: &[u8],
    value_len: usize,
    row: RowFields,
) -> Result<Planned, Refusal>
    ensures { Plans (λ f. would_fit (view_from s first_key.now) data_len places_len key.now f) (view_from s first_key.now) key.now row value_len result }
{
    if finish_in_place_v1::is_bad_state(s, data_len, places_len) {
        return Err(Refusal::BadState);
    }
    let shared = compute_prefix(s.rows, first_key, s.first_key_len, key);
    let n = encoded_size(shared, key.len(), value_len, row)?;
    // Rows past the block size leave no room for another. Below it no sum wraps.
    if s.block_size < s.used {
        return Err(Refusal::RowDoesNotFit);
    }
    let with_row = size(s.used, s.rows) + n;
    let with_offset = with_row + SIZEOF_U16;
    let planned = Ok(Planned {
        shared,
        size: with_offset,
    });
    // An empty block accepts a row that exceeds its size. In any other the row's own offset is not counted.
    if s.rows == 0 {
        return planned;
    }
    if with_row <= s.block_size {
        return planned;
    }
    Err(Refusal::RowDoesNotFit)
}

// Whether the row would fit a builder whose first key's bytes are lent, over buffers of these lengths: 18 unless those bytes are MAX_KEY; then 18, 1, 2, 3, and 4 for "no".
pub fn would_fit_in_place(
    first_key: &[u8],
    s: State,
    data_len: usize,
    places_len: usize,
    key: &[u8],
    value: &[u8],
    row: RowFields,
) -> Result<(), Refusal>
    ensures { FitsInPlace s first_key.now data_len places_len key.now value.now row result }
{
    let Ok(first_key) = <&[u8; basics::MAX_KEY]>::try_from(first_key) else {
        return Err(Refusal::BadState);
    };
    plan_row(s, first_key, data_len, places_len, key, value.len(), row)?;
    Ok(())
}

// All tests of adding: the fit question's, then 5, 6.
fn accept_row(
    s: State,
    first_key: &[u8; basics::MAX_KEY],
    data_len: usize,
    places_len: usize,
    key: &[u8],
    value_len: usize,
    row: RowFields,
) -> Result<Planned, Refusal>
    ensures { Plans (λ f. whether (add (view_from s first_key.now) data_len places_len key.now f)) (view_from s first_key.now) key.now row value_len result }
{
    let planned = plan_row(s, first_key, data_len, places_len, key, value_len, row)?;
    // Two bytes hold the row's offset.
    if basics::MAX_OFFSET < s.used {
        return Err(Refusal::RestartTooFar);
    }
    // The trailer of the grown block must have room too.
    if data_len < planned.size {
        return Err(Refusal::BufferTooSmall);
    }
    if places_len <= s.rows {
        return Err(Refusal::BufferTooSmall);
    }
    Ok(planned)
}

// ---- a row, written

// Writes the row into the free rest of the data buffer, and answers how much of it is used then.
fn write_row(
    data: &mut [u8],
    used: usize,
    first_len: usize,
    shared: usize,
    key: &[u8],
    value: &[u8],
    row: RowFields,
) -> usize
    requires { Fitting «data».old used first_len shared key.now (fields_from row value.now) }
    ensures { Wrote «data».old used (row_bytes shared (drop shared key.now) (fields_from row value.now)) «data».new result }
{
    let e = row_encode_v0::encode(
        &mut data[used..],
        first_len,
        shared,
        &key[shared..],
        value,
        row,
    );
    // Never taken: the row is tested and has room.
    let Ok(n) = e else {
        return used;
    };
    used + n
}

// Keeps the first row's key over the start of the lent bytes, and answers how long the first key is then.
fn keep_first(first_key: &mut [u8], rows: usize, first_len: usize, key: &[u8]) -> usize
    requires { length key.now ≤ length first_key.old }
    ensures { (result ≡ cond (eqb rows 0) (length key.now) first_len) × (first_key.new ≡ cond (eqb rows 0) (splice first_key.old 0 key.now) first_key.old) }
{
    if rows == 0 {
        let _ = buf_mut::copy_in(first_key, 0, key);
        return key.len();
    }
    first_len
}

// Writes an accepted row: its offset, its bytes, and the first one's key.
fn grow(
    first_key: &mut [u8],
    s: State,
    shared: usize,
    data: &mut [u8],
    offsets: &mut [u16],
    key: &[u8],
    value: &[u8],
    row: RowFields,
) -> State
    requires first_key_len { length first_key.old ≡ max_key }
    requires tested { Tested (view_from s first_key.old) «data».old offsets.old key.now (fields_from row value.now) shared }
    ensures { Grew s first_key.old «data».old offsets.old key.now (fields_from row value.now) result first_key.new «data».new offsets.new }
{
    let rows = s.rows;
    offsets[rows] = s.used as u16;
    let used = write_row(data, s.used, s.first_key_len, shared, key, value, row);
    let first_key_len = keep_first(first_key, rows, s.first_key_len, key);
    State {
        used,
        rows: rows + 1,
        first_key_len,
        ..s
    }
}

// Adds a row to a builder whose first key's bytes are lent: 18 unless they are MAX_KEY; then 18, 1, 2, 3, 4, 5, 6. All tests, then all writes.
pub fn add_in_place(
    first_key: &mut [u8],
    s: State,
    data: &mut [u8],
    offsets: &mut [u16],
    key: &[u8],
    value: &[u8],
    row: RowFields,
) -> Grown
    ensures { AddsInPlace s first_key.old «data».old offsets.old key.now value.now row result first_key.new «data».new offsets.new }
{
    let Ok(first) = <&[u8; basics::MAX_KEY]>::try_from(&first_key[..]) else {
        let answer = Err(Refusal::BadState);
        return Grown { state: s, answer };
    };
    let data_len = data.len();
    let places_len = offsets.len();
    match accept_row(s, first, data_len, places_len, key, value.len(), row) {
        Ok(planned) => Grown {
            state: grow(first_key, s, planned.shared, data, offsets, key, value, row),
            answer: Ok(()),
        },
        Err(refusal) => Grown {
            state: s,
            answer: Err(refusal),
        },
    }
}
