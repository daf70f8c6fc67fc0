// The read of a V0 row, whole or its key only, with every test in its order.
// Follows slatedb 0.16.0, src/format/row.rs (Apache License 2.0), and is changed: rows are read from lent slices, an answer names places in them and copies
// nothing, what the input can break is a refusal, and a tombstone's expire time is given as it is written.
#![tactic(auto)]

ghost use Rattle.std.specs.Prelude.{◌≡◌, ◌≤◌, length};
ghost use Rattle.layout.specs.Limits.{max_key};
ghost use Rattle.layout_v1.specs.RowRead.{head_at, body_at, held_at, row_at, row_is, read_row};
ghost use Rattle.layout_v1.specs.Plain.{plain_at};
ghost use Rattle.basics.specs.Says.{says_kind};
ghost use Rattle.row_flags_decode.specs.Says.{times_from};
ghost use Rattle.row_plain_v2.specs.Promise.{says_plain};
ghost use Rattle.row_decode_v2.specs.Says.{row_from, says_row};
ghost use Rattle.row_decode_v0.specs.Promise.{Decodes, DecodesAt, DecodesKey};
ghost use Rattle.row_decode_v0.specs.Reading.{head_from, says_head, body_from, says_body, held_from, says_held_at, kept_at};

use basics::{Kind, Read, Refusal, ValueDeletable};
use row_decode_v2::{KeyPlace, Row};
use row_flags_decode::{RowFlags, Times};
use row_plain_v2::PlainRow;

// Reads a single row, after a first key of `first_len` bytes: nothing says where it ends.
pub fn decode(s: &[u8], first_len: usize) -> Result<Row, Refusal>
    ensures { Decodes s.now first_len result }
{
    row_at(s, 0, first_len)
}

// Reads the row at `at`, that ends at `end` and may share `most` bytes: as many as the first key has, in row 0 none.
pub fn decode_at(s: &[u8], at: usize, end: usize, most: usize) -> Result<Row, Refusal>
    ensures { DecodesAt s.now at end most result }
{
    let Some(plain) = plain_at(s, at, end, most) else {
        return decoded_at(s, at, end, most);
    };
    let suffix_at = at + 4;
    let seq_at = suffix_at + plain.unshared;
    let value_at = at + 17 + plain.unshared;
    Ok(Row {
        start: at,
        next: plain.next,
        shared: plain.shared,
        suffix_at,
        suffix_len: plain.unshared,
        held: ValueDeletable::Value {
            start: value_at,
            len: plain.value_len,
        },
        seq: buf::eight(s, seq_at),
        expire: None,
        create: None,
    })
}

// Reads only the key of the row at `at`, for seeks: it is the suffix that must not run past `end`.
pub fn decode_key_only(s: &[u8], at: usize, end: usize, most: usize) -> Result<KeyPlace, Refusal>
    ensures { DecodesKey s.now at end most result }
{
    let head = head_at(s, at, most)?;
    let suffix_end = head.suffix_at + head.unshared;
    if s.len() < suffix_end {
        return Err(Refusal::InputEnds);
    }
    if end < suffix_end {
        return Err(Refusal::RowPastRegion);
    }
    Ok(KeyPlace {
        shared: head.shared,
        suffix_at: head.suffix_at,
        suffix_len: head.unshared,
    })
}

// A value with no times, that ends at `end`: a few tests of numbers. None where the row is not so.
fn plain_at(s: &[u8], at: usize, end: usize, most: usize) -> Option<PlainRow>
    ensures { says_plain result ≡ plain_at s.now at end most }
{
    if (end < 17) | (s.len() < end) {
        return None;
    }
    if end - 17 < at {
        return None;
    }
    let shared = buf::two(s, at);
    let unshared = buf::two(s, at + 2);
    let value_at = at + 17 + unshared;
    if (most < shared)
        | (shared + unshared == 0)
        | (basics::MAX_KEY < shared + unshared)
        | (end < value_at)
    {
        return None;
    }
    let value_len = end - value_at;
    let flags = s[value_at - 5];
    let written = buf::four(s, value_at - 4);
    if (0 < flags) | (basics::MAX_VALUE < value_len) | (written != value_len) {
        return None;
    }
    Some(PlainRow {
        next: end,
        shared,
        unshared,
        value_len,
    })
}

// The row of a block that is not plain: with every test, and its end last.
fn decoded_at(s: &[u8], at: usize, end: usize, most: usize) -> Result<Row, Refusal>
    ensures { says_row result ≡ read_row s.now at end most }
{
    let row = row_at(s, at, most)?;
    if end < row.next {
        return Err(Refusal::RowPastRegion);
    }
    if row.next < end {
        return Err(Refusal::RowEndsEarly);
    }
    Ok(row)
}

// The row at `at`, wherever it ends.
fn row_at(s: &[u8], at: usize, most: usize) -> Result<Row, Refusal>
    ensures { says_row result ≡ row_at s.now at most }
{
    let head = head_at(s, at, most)?;
    let body = body_at(s, head)?;
    let times = row_flags_decode::times_at(s, body.next, body.flags)?;
    let held = held_at(body.flags.kind, s, times.next)?;
    Ok(row_of(at, head, body, times, held))
}

// The two lengths of a key that is allowed, and where its suffix starts.
#[derive(Clone, Copy)]
struct Head {
    shared: usize,
    unshared: usize,
    suffix_at: usize,
}

fn head_at(s: &[u8], at: usize, most: usize) -> Result<Head, Refusal>
    ensures { says_head result ≡ head_at s.now at most }
{
    let prefix = buf::get_u16(s, at)?;
    let suffix = buf::get_u16(s, prefix.next)?;
    let shared = prefix.value as usize;
    let unshared = suffix.value as usize;
    if most < shared {
        return Err(Refusal::BadShare);
    }
    if shared + unshared == 0 {
        return Err(Refusal::EmptyKey);
    }
    if basics::MAX_KEY < shared + unshared {
        return Err(Refusal::KeyTooLong);
    }
    Ok(Head {
        shared,
        unshared,
        suffix_at: suffix.next,
    })
}

// What stands after the suffix, to the flags, and where the times start.
#[derive(Clone, Copy)]
struct Body {
    seq: u64,
    flags: RowFlags,
    next: usize,
}

// No sum wraps for a head that was read from `s`.
fn body_at(s: &[u8], head: Head) -> Result<Body, Refusal>
    requires { (head.suffix_at ≤ length s.now) × (head.unshared ≤ max_key) }
    ensures { says_body result ≡ body_at s.now (head_from head) }
{
    let seq_at = head.suffix_at + head.unshared;
    // Eight bytes of seq and one of flags: one test for all that stands before the times.
    let next = seq_at + 9;
    if s.len() < next {
        return Err(Refusal::InputEnds);
    }
    let seq = buf::get_u64(s, seq_at)?;
    let flags = row_flags_decode::decode_flags(s[seq.next])?;
    Ok(Body {
        seq: seq.value,
        flags,
        next,
    })
}

// What the row holds, and the place after it. A tombstone has neither a value's length nor a value.
fn held_at(kind: Kind, s: &[u8], at: usize) -> Result<Read<ValueDeletable>, Refusal>
    ensures { says_held_at result ≡ held_at (says_kind kind) s.now at }
{
    match kind {
        Kind::Value => kept_at(kind, s, at),
        Kind::Tombstone => Ok(Read {
            value: ValueDeletable::Tombstone,
            next: at,
        }),
        Kind::Merge => kept_at(kind, s, at),
    }
}

fn kept_at(kind: Kind, s: &[u8], at: usize) -> Result<Read<ValueDeletable>, Refusal>
    ensures { says_held_at result ≡ kept_at (says_kind kind) s.now at }
{
    let value_len = buf::get_u32(s, at)?;
    let start = value_len.next;
    let len = value_len.value as usize;
    if basics::MAX_VALUE < len {
        return Err(Refusal::ValueTooLong);
    }
    let next = start + len;
    if s.len() < next {
        return Err(Refusal::InputEnds);
    }
    let value = row_decode_v2::held_as(kind, start, len);
    Ok(Read { value, next })
}

fn row_of(at: usize, head: Head, body: Body, times: Times, held: Read<ValueDeletable>) -> Row
    ensures { row_from result ≡ row_is at (head_from head) (body_from body) (times_from times) (held_from held) }
{
    Row {
        start: at,
        next: held.next,
        shared: head.shared,
        suffix_at: head.suffix_at,
        suffix_len: head.unshared,
        held: held.value,
        seq: body.seq,
        expire: times.expire,
        create: times.create,
    }
}
