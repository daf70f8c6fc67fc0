// The bytes of a V0 row, written after the block's first key, with every test in its order.
// Follows slatedb 0.16.0, src/format/row.rs (Apache License 2.0), and is changed: rows are written to lent slices, and what the lengths or the room can
// break is a refusal.
#![tactic(auto)]

ghost use Rattle.std.specs.Prelude.{◌≤◌, ◌<◌, ◌+◌, ◌^◌, length};
ghost use Rattle.layout.specs.Row.{kept_length};
ghost use Rattle.layout.specs.Laws.Splice.{Wrote};
ghost use Rattle.layout_v1.specs.Row.{value_bytes_of, row_bytes};
ghost use Rattle.basics.specs.Says.{says_kind};
ghost use Rattle.row_flags.specs.Says.{fields_from};
ghost use Rattle.row_encode_v0.specs.Parts.{key_bytes, held_bytes};
ghost use Rattle.row_encode_v0.specs.Promise.{Encodes};

use basics::{Kind, Refusal};
use row_flags::RowFields;

// The share, the suffix and its length, and the sequence number, at the start of `output`. Each of these answers the place after what it writes.
fn write_key(output: &mut [u8], shared: usize, key_suffix: &[u8], seq: u64) -> usize
    requires shared_bound { (shared < 2 ^ 16) × (length key_suffix.now < 2 ^ 16) }
    requires seq_in_bounds { 0 + length (key_bytes shared key_suffix.now seq) ≤ length output.old }
    ensures { Wrote output.old 0 (key_bytes shared key_suffix.now seq) output.new result }
{
    let a = buf_mut::place_after(buf_mut::put_u16(output, 0, shared as u16));
    let b = buf_mut::place_after(buf_mut::put_u16(output, a, key_suffix.len() as u16));
    let c = buf_mut::place_after(buf_mut::copy_in(output, b, key_suffix));
    buf_mut::place_after(buf_mut::put_u64(output, c, seq))
}

fn put_value(output: &mut [u8], at: usize, value: &[u8]) -> usize
    requires { (length value.now < 2 ^ 32) × (at + length (held_bytes value.now) ≤ length output.old) }
    ensures { Wrote output.old at (held_bytes value.now) output.new result }
{
    let a = buf_mut::place_after(buf_mut::put_u32(output, at, value.len() as u32));
    buf_mut::place_after(buf_mut::copy_in(output, a, value))
}

// A tombstone has no value, and no length of one.
fn write_value(output: &mut [u8], at: usize, kind: Kind, value: &[u8]) -> usize
    requires value_bound { kept_length (says_kind kind) (length value.now) < 2 ^ 32 }
    requires value_in_bounds { at + length (value_bytes_of (says_kind kind) value.now) ≤ length output.old }
    ensures { Wrote output.old at (value_bytes_of (says_kind kind) value.now) output.new result }
{
    match kind {
        Kind::Value => put_value(output, at, value),
        Kind::Merge => put_value(output, at, value),
        Kind::Tombstone => at,
    }
}

// The row at the start of `output`, once its lengths and its room are tested.
fn write_row(
    output: &mut [u8],
    shared: usize,
    key_suffix: &[u8],
    value: &[u8],
    row: RowFields,
) -> usize
    requires shared_bound { (shared < 2 ^ 16) × (length key_suffix.now < 2 ^ 16) × (kept_length (says_kind row.kind) (length value.now) < 2 ^ 32) }
    requires value_in_bounds { length (row_bytes shared key_suffix.now (fields_from row value.now)) ≤ length output.old }
    ensures { Wrote output.old 0 (row_bytes shared key_suffix.now (fields_from row value.now)) output.new result }
{
    let kind = row.kind;
    let seq = row.seq;
    let a = write_key(output, shared, key_suffix, seq);
    let b = buf_mut::place_after(row_flags::write_marks(output, a, row));
    write_value(output, b, kind, value)
}

// Writes a row at the start of `output`, after a first key of `first_len` bytes: 13, 1, 2, 3, 6.
pub fn encode(
    output: &mut [u8],
    first_len: usize,
    shared: usize,
    key_suffix: &[u8],
    value: &[u8],
    row: RowFields,
) -> Result<usize, Refusal>
    ensures { Encodes first_len shared key_suffix.now value.now row output.old result output.new }
{
    if first_len < shared {
        return Err(Refusal::BadShare);
    }
    let kind = row.kind;
    let expire = row.expire;
    let create = row.create;
    let size = row_size_v0::encoded_size(
        shared,
        key_suffix.len(),
        kind,
        value.len(),
        expire,
        create,
    )?;
    if output.len() < size {
        return Err(Refusal::BufferTooSmall);
    }
    Ok(write_row(output, shared, key_suffix, value, row))
}
