// The bytes of a V2 row, written after a previous key, with every test in its order.
// Follows slatedb 0.16.0, src/format/row_codec_v2.rs (Apache License 2.0), and is changed: rows are written to lent slices, and what the lengths or the
// room can break is a refusal.
#![tactic(auto)]

ghost use Rattle.std.specs.Prelude.{◌≤◌, ◌<◌, ◌+◌, ◌^◌, length};
ghost use Rattle.layout.specs.Row.{kept_length, row_bytes};
ghost use Rattle.layout.specs.Laws.Splice.{Wrote};
ghost use Rattle.basics.specs.Says.{says_kind};
ghost use Rattle.row_flags.specs.Says.{fields_from};
ghost use Rattle.row_encode_v2.specs.Parts.{length_bytes, body_bytes};
ghost use Rattle.row_encode_v2.specs.Promise.{Encodes};

use basics::Refusal;
use row_flags::RowFields;

// Each of these writes at `at` and answers the place after it.
fn write_lengths(
    output: &mut [u8],
    at: usize,
    shared: usize,
    suffix_len: usize,
    value_len: usize,
) -> usize
    requires shared_bound { (shared < 2 ^ 32) × (suffix_len < 2 ^ 32) × (value_len < 2 ^ 32) }
    requires value_len_in_bounds { at + length (length_bytes shared suffix_len value_len) ≤ length output.old }
    ensures { Wrote output.old at (length_bytes shared suffix_len value_len) output.new result }
{
    let a = buf_mut::place_after(utils::encode_varint(output, at, shared as u32));
    let b = buf_mut::place_after(utils::encode_varint(output, a, suffix_len as u32));
    buf_mut::place_after(utils::encode_varint(output, b, value_len as u32))
}

fn write_body(output: &mut [u8], at: usize, key_suffix: &[u8], value: &[u8], seq: u64) -> usize
    requires { at + length (body_bytes key_suffix.now value.now seq) ≤ length output.old }
    ensures { Wrote output.old at (body_bytes key_suffix.now value.now seq) output.new result }
{
    let a = buf_mut::place_after(buf_mut::copy_in(output, at, key_suffix));
    let b = buf_mut::place_after(buf_mut::copy_in(output, a, value));
    buf_mut::place_after(buf_mut::put_u64(output, b, seq))
}

// The row at the start of `output`, once its lengths and its room are tested.
fn write_row(
    output: &mut [u8],
    shared: usize,
    key_suffix: &[u8],
    value: &[u8],
    row: RowFields,
) -> usize
    requires shared_bound { (shared < 2 ^ 32) × (length key_suffix.now < 2 ^ 32) × (kept_length (says_kind row.kind) (length value.now) < 2 ^ 32) }
    requires value_in_bounds { length (row_bytes shared key_suffix.now (fields_from row value.now)) ≤ length output.old }
    ensures { Wrote output.old 0 (row_bytes shared key_suffix.now (fields_from row value.now)) output.new result }
{
    let kind = row.kind;
    let seq = row.seq;
    let kept = row_flags::kept_len(kind, value.len());
    let a = write_lengths(output, 0, shared, key_suffix.len(), kept);
    let b = write_body(output, a, key_suffix, &value[..kept], seq);
    buf_mut::place_after(row_flags::write_marks(output, b, row))
}

// Writes a row at the start of `output`, after a key of `previous_len` bytes: 13, 1, 2, 3, 6.
pub fn encode(
    output: &mut [u8],
    previous_len: usize,
    shared: usize,
    key_suffix: &[u8],
    value: &[u8],
    row: RowFields,
) -> Result<usize, Refusal>
    ensures { Encodes previous_len shared key_suffix.now value.now row output.old result output.new }
{
    if previous_len < shared {
        return Err(Refusal::BadShare);
    }
    let kind = row.kind;
    let expire = row.expire;
    let create = row.create;
    let size = row_size_v2::encoded_size(
        shared,
        key_suffix.len(),
        kind,
        value.len(),
        expire,
        create,
    )?;
    if output.len() < size {
        return Err(Refusal::BufferTooSmall);
    }
    Ok(write_row(output, shared, key_suffix, value, row))
}
