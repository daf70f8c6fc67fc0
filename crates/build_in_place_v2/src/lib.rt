// A V2 block's builder as its numbers, beside the lent bytes of its last key: whether a row would fit, and a row added.
// The rows' bytes and the restarts' offsets are in buffers that are lent too.
// Follows slatedb 0.16.0, src/format/block_v2.rs (Apache License 2.0), and is changed: the numbers come in and go out by value, rows go into the free rest of the lent
// data buffer, the last key's bytes are worked on where they lie, and what the row, the room or the numbers themselves can break is a refusal. A refused call
// changes nothing.
#![tactic(auto)]

ghost use Rattle.std.specs.Prelude.{◌≡◌, false, cond, ◌&&◌, ◌||◌, ◌≤◌, ◌<◌, ◌+◌, ◌*◌, ◌^◌, ltb, leb, eqb, length, take, drop, set};
ghost use Rattle.layout.specs.Block.{is_restart, share_of};
ghost use Rattle.layout.specs.Builder.{restarts_of};
ghost use Rattle.layout.specs.Key.{common};
ghost use Rattle.layout.specs.Limits.{max_key, max_block, max_interval, max_offset, max_restarts};
ghost use Rattle.layout.specs.Row.{if_so, row_bytes};
ghost use Rattle.layout.specs.Varint.{varint};
ghost use Rattle.layout.specs.Laws.Splice.{Wrote};
ghost use Rattle.row_flags.specs.Says.{fields_from};
ghost use Rattle.state_v2.specs.Says.{view_from};
ghost use Rattle.build_in_place_v2.specs.Plan.{SizesRow, fitted, accepted, Plans, plan_is, Finds, Tested, Fitting, plain_bytes, PlainFits, Grew};
ghost use Rattle.build_in_place_v2.specs.Promise.{FitsInPlace, AddsInPlace};

use basics::Refusal;
use row_flags::RowFields;
use state_v2::State;

const SIZEOF_U16: usize = 2;

// The length of the common prefix with the first `last_len` bytes of `last`.
fn compute_prefix(last: &[u8], last_len: usize, key: &[u8]) -> usize
    requires { last_len ≤ length last.now }
    ensures { result ≡ common (take last_len last.now) key.now }
{
    keys::common_prefix(&last[..last_len], key)
}

// What the tests of a row found: how much of the last key it shares, how large the block is with it, and whether it is a restart.
#[derive(Clone, Copy)]
struct Planned {
    shared: usize,
    size: usize,
    restart: bool,
}

// ---- the state

fn current_size(used: usize, restarts: usize) -> usize
    requires { (used ≤ max_block) × (restarts ≤ max_restarts) }
    ensures { (result ≡ used + 2 * restarts + 2) × (result ≤ max_block + 2 * max_restarts + 2) }
{
    used + restarts * SIZEOF_U16 + SIZEOF_U16
}

// A row is a restart where the rows before it fill the intervals of all restarts.
fn is_restart_point(restarts: usize, counter: usize, restart_interval: usize) -> bool
    requires le_restart_interval { (1 ≤ restart_interval) × (restart_interval ≤ max_interval) × (restarts ≤ max_restarts) }
    requires restarts_value { restarts ≡ restarts_of counter restart_interval }
    ensures { result ≡ is_restart restart_interval counter }
{
    counter == restarts * restart_interval
}

// ---- a row, tested

// How many bytes of the last key are not written again. At a restart the full key is.
fn shared_bytes(restart: bool, last: &[u8], last_len: usize, key: &[u8]) -> usize
    requires { last_len ≤ length last.now }
    ensures { result ≡ share_of restart (take last_len last.now) key.now }
{
    if restart {
        return 0;
    }
    compute_prefix(last, last_len, key)
}

// The encoded size of a row with a key of this length, of which the last key gives `shared` bytes, from lengths alone: 1, 2, 3.
fn entry_encoded_size(
    shared: usize,
    key_len: usize,
    value_len: usize,
    row: RowFields,
) -> Result<usize, Refusal>
    requires { shared ≤ key_len }
    ensures { SizesRow shared key_len value_len row result }
{
    let kind = row.kind;
    let expire = row.expire;
    let create = row.create;
    row_size_v2::encoded_size(shared, key_len - shared, kind, value_len, expire, create)
}

// A new restart's offset takes two bytes of the trailer.
fn restart_overhead(restart: bool) -> usize
    ensures { (result ≡ if_so restart 2) × (result ≤ 2) }
{
    if restart { SIZEOF_U16 } else { 0 }
}

// An empty block accepts a row that exceeds its size.
fn has_room(counter: usize, block_size: usize, size: usize) -> bool
    ensures { result ≡ (eqb counter 0 || leb size block_size) }
{
    counter == 0 || size <= block_size
}

// The fit question, with what was found on the way: 18, 1, 2, 3, 4. Of the value its length is enough, and nothing is written.
fn plan_row(
    s: State,
    last_key: &[u8; basics::MAX_KEY],
    data_len: usize,
    places_len: usize,
    key: &[u8],
    value_len: usize,
    row: RowFields,
) -> Result<Planned, Refusal>
    ensures { Plans (fitted (view_from s last_key.now) data_len places_len key.now) row value_len result }
{
    if finish_in_place_v2::is_bad_state(s, data_len, places_len) {
        return Err(Refusal::BadState);
    }
    let restart = is_restart_point(s.restarts, s.counter, s.restart_interval);
    let shared = shared_bytes(restart, last_key, s.last_key_len, key);
    let n = entry_encoded_size(shared, key.len(), value_len, row)?;
    let no = Err(Refusal::RowDoesNotFit);
    // Rows past the block size leave no room for another. Below it no sum wraps.
    if s.block_size < s.used {
        return no;
    }
    let size = current_size(s.used, s.restarts) + n + restart_overhead(restart);
    if has_room(s.counter, s.block_size, size) {
        return Ok(Planned {
            shared,
            size,
            restart,
        });
    }
    no
}

// Whether the row would fit a builder whose last key's bytes are lent, over buffers of these lengths: 18 unless those bytes are MAX_KEY; then 18, 1, 2, 3, and 4 for "no".
pub fn would_fit_in_place(
    last_key: &[u8],
    s: State,
    data_len: usize,
    places_len: usize,
    key: &[u8],
    value: &[u8],
    row: RowFields,
) -> Result<(), Refusal>
    ensures { FitsInPlace s last_key.now data_len places_len key.now value.now row result }
{
    let Ok(last_key) = <&[u8; basics::MAX_KEY]>::try_from(last_key) else {
        return Err(Refusal::BadState);
    };
    plan_row(s, last_key, data_len, places_len, key, value.len(), row)?;
    Ok(())
}

fn restart_too_far(restart: bool, used: usize) -> bool
    ensures { result ≡ (restart && ltb max_offset used) }
{
    restart && basics::MAX_OFFSET < used
}

fn no_place_left(restart: bool, places_len: usize, restarts: usize) -> bool
    ensures { result ≡ (restart && leb places_len restarts) }
{
    restart && places_len <= restarts
}

// All tests of adding: the fit question's, then 5, 6.
fn accept_row(
    s: State,
    last_key: &[u8; basics::MAX_KEY],
    data_len: usize,
    places_len: usize,
    key: &[u8],
    value_len: usize,
    row: RowFields,
) -> Result<Planned, Refusal>
    ensures { Plans (accepted (view_from s last_key.now) data_len places_len key.now) row value_len result }
{
    let planned = plan_row(s, last_key, data_len, places_len, key, value_len, row)?;
    if restart_too_far(planned.restart, s.used) {
        return Err(Refusal::RestartTooFar);
    }
    // The trailer of the grown block must have room too.
    if data_len < planned.size {
        return Err(Refusal::BufferTooSmall);
    }
    if no_place_left(planned.restart, places_len, s.restarts) {
        return Err(Refusal::BufferTooSmall);
    }
    Ok(planned)
}

// The tests of `accept_row` again, for a row that passes them all: with no refusal to hand on, they are quick. Which row is refused, and how, is left to
// `accept_row`.
fn find_row(
    s: State,
    last_key: &[u8; basics::MAX_KEY],
    data_len: usize,
    places_len: usize,
    key: &[u8],
    value_len: usize,
    row: RowFields,
) -> Option<Planned>
    ensures { Finds (accepted (view_from s last_key.now) data_len places_len key.now) row value_len result }
{
    if finish_in_place_v2::is_bad_state(s, data_len, places_len) {
        return None;
    }
    let mark = is_restart_point(s.restarts, s.counter, s.restart_interval);
    let shared = shared_bytes(mark, last_key, s.last_key_len, key);
    let Ok(n) = entry_encoded_size(shared, key.len(), value_len, row) else {
        return None;
    };
    if s.block_size < s.used {
        return None;
    }
    let size = current_size(s.used, s.restarts) + n + restart_overhead(mark);
    if has_room(s.counter, s.block_size, size) {
        if restart_too_far(mark, s.used) {
            return None;
        }
        if data_len < size {
            return None;
        }
        if no_place_left(mark, places_len, s.restarts) {
            return None;
        }
        return Some(Planned {
            shared,
            size,
            restart: mark,
        });
    }
    None
}

// ---- a row, written

// Writes a length at `at` and answers the place after it.
fn put_length(data: &mut [u8], at: usize, n: usize) -> usize
    requires { (n < 2 ^ 32) × (at + length (varint n) ≤ length «data».old) }
    ensures { Wrote «data».old at (varint n) «data».new result }
{
    buf_mut::place_after(utils::encode_varint(data, at, n as u32))
}

// A value with no times, which most rows are: its flags are 0 and nothing follows them.
fn write_plain(
    data: &mut [u8],
    used: usize,
    shared: usize,
    key: &[u8],
    value: &[u8],
    seq: u64,
) -> usize
    requires { PlainFits «data».old used shared key.now value.now seq }
    ensures { Wrote «data».old used (plain_bytes shared (drop shared key.now) value.now seq) «data».new result }
{
    let a = put_length(data, used, shared);
    let b = put_length(data, a, key.len() - shared);
    let c = put_length(data, b, value.len());
    let d = c + (key.len() - shared);
    let e = d + value.len();
    let _ = buf_mut::copy_in(data, c, &key[shared..]);
    let _ = buf_mut::copy_in(data, d, value);
    let _ = buf_mut::put_u64(data, e, seq);
    data[e + 8] = 0;
    e + 9
}

// Writes the row into the free rest of the data buffer, and answers how much of it is used then.
fn write_row(
    data: &mut [u8],
    used: usize,
    last_len: usize,
    shared: usize,
    key: &[u8],
    value: &[u8],
    row: RowFields,
) -> usize
    requires { Fitting «data».old used last_len shared key.now (fields_from row value.now) }
    ensures { Wrote «data».old used (row_bytes shared (drop shared key.now) (fields_from row value.now)) «data».new result }
{
    if row_flags::flags(row) == 0 {
        return write_plain(data, used, shared, key, value, row.seq);
    }
    let e = row_encode_v2::encode(
        &mut data[used..],
        last_len,
        shared,
        &key[shared..],
        value,
        row,
    );
    // Never taken: the row is tested and has room.
    let Ok(n) = e else {
        return used;
    };
    used + n
}

// Records a restart's offset, and answers how many restarts there are then.
fn put_restart(restarts: &mut [u16], restart: bool, count: usize, used: usize) -> usize
    requires used_value { (restart && ltb max_offset used) ≡ false }
    requires count_value { (restart && leb (length restarts.old) count) ≡ false }
    ensures { (result ≡ count + if_so restart 1) × (restarts.new ≡ cond restart (set restarts.old count used) restarts.old) }
{
    if restart {
        restarts[count] = used as u16;
        return count + 1;
    }
    count
}

// Writes an accepted row: its bytes, a restart's offset, and its key over the last one.
fn grow(
    last_key: &mut [u8],
    s: State,
    shared: usize,
    restart: bool,
    data: &mut [u8],
    restarts: &mut [u16],
    key: &[u8],
    value: &[u8],
    row: RowFields,
) -> State
    requires last_key_len { length last_key.old ≡ max_key }
    requires tested { Tested (view_from s last_key.old) «data».old restarts.old key.now (fields_from row value.now) shared restart }
    ensures { Grew s last_key.old «data».old restarts.old key.now (fields_from row value.now) result last_key.new «data».new restarts.new }
{
    let used = write_row(data, s.used, s.last_key_len, shared, key, value, row);
    let count = put_restart(restarts, restart, s.restarts, s.used);
    // The bytes that it shares lie there already.
    let _ = buf_mut::copy_in(last_key, shared, &key[shared..]);
    State {
        used,
        restarts: count,
        counter: s.counter + 1,
        last_key_len: key.len(),
        ..s
    }
}

// Adds a row to a builder whose last key's bytes are lent: 18 unless they are MAX_KEY; then 18, 1, 2, 3, 4, 5, 6. All tests, then all writes.
pub fn add_in_place(
    last_key: &mut [u8],
    s: State,
    data: &mut [u8],
    restarts: &mut [u16],
    key: &[u8],
    value: &[u8],
    row: RowFields,
) -> Result<State, Refusal>
    ensures { AddsInPlace s last_key.old «data».old restarts.old key.now value.now row result last_key.new «data».new restarts.new }
{
    let Ok(last) = <&[u8; basics::MAX_KEY]>::try_from(&last_key[..]) else {
        return Err(Refusal::BadState);
    };
    let data_len = data.len();
    let places_len = restarts.len();
    let value_len = value.len();
    let Some(found) = find_row(s, last, data_len, places_len, key, value_len, row) else {
        let planned = accept_row(s, last, data_len, places_len, key, value_len, row);
        return Err(basics::refusal_of(planned));
    };
    Ok(grow(
        last_key,
        s,
        found.shared,
        found.restart,
        data,
        restarts,
        key,
        value,
        row,
    ))
}
