// The read of a V2 row, whole or its key only, with every test in its order.
// Follows slatedb 0.16.0, src/format/row_codec_v2.rs (Apache License 2.0), and is changed: rows are read from lent slices, an answer names places in them
// and copies nothing, and what the input can break is a refusal.
#![tactic(auto)]

ghost use Rattle.std.specs.Prelude.{◌≡◌, ◌≤◌, length};
ghost use Rattle.layout.specs.Limits.{max_key};
ghost use Rattle.layout.specs.RowRead.{lengths_at, head_at, body_at, row_is};
ghost use Rattle.row_flags_decode.specs.Says.{times_from};
ghost use Rattle.row_decode_v2.specs.Says.{row_from};
ghost use Rattle.row_decode_v2.specs.Promise.{Decodes, DecodesAt, DecodesKey, HeldAs, MayShare};
ghost use Rattle.row_decode_v2.specs.Reading.{says_lengths, lengths_from, body_from, says_body};

use basics::{Kind, Refusal, ValueDeletable};
use row_flags_decode::{RowFlags, Times};

// Where a row, its key's suffix and its value stand, and its other fields.
#[derive(Clone, Copy)]
pub struct Row {
    pub start: usize,
    pub next: usize,
    pub shared: usize,
    pub suffix_at: usize,
    pub suffix_len: usize,
    pub held: ValueDeletable,
    pub seq: u64,
    pub expire: Option<i64>,
    pub create: Option<i64>,
}

#[derive(Clone, Copy)]
pub struct KeyPlace {
    pub shared: usize,
    pub suffix_at: usize,
    pub suffix_len: usize,
}

// Reads a single row, after a key of `previous_len` bytes: the whole input is its region, and it is no restart.
pub fn decode(s: &[u8], previous_len: usize) -> Result<Row, Refusal>
    ensures { Decodes s.now previous_len result }
{
    decode_at(s, 0, s.len(), previous_len, false)
}

// Reads the row at `at`, after a key of `previous_len` bytes, in a region that ends at `region_end`.
pub fn decode_at(
    s: &[u8],
    at: usize,
    region_end: usize,
    previous_len: usize,
    restart: bool,
) -> Result<Row, Refusal>
    ensures { DecodesAt s.now at region_end previous_len restart result }
{
    let head = head_at(s, at, previous_len, restart)?;
    let body = body_at(s, head)?;
    let times = row_flags_decode::times_at(s, body.next, body.flags)?;
    if region_end < times.next {
        return Err(Refusal::RowPastRegion);
    }
    Ok(row_of(at, head, body, times))
}

// Reads only the key of the row at `at`, for seeks: the value may be too long or missing, and it is the suffix that must end
// inside the region.
pub fn decode_key_only(
    s: &[u8],
    at: usize,
    region_end: usize,
    previous_len: usize,
    restart: bool,
) -> Result<KeyPlace, Refusal>
    ensures { DecodesKey s.now at region_end previous_len restart result }
{
    let head = head_at(s, at, previous_len, restart)?;
    let suffix_end = head.suffix_at + head.unshared as usize;
    if s.len() < suffix_end {
        return Err(Refusal::InputEnds);
    }
    if region_end < suffix_end {
        return Err(Refusal::RowPastRegion);
    }
    Ok(KeyPlace {
        shared: head.shared as usize,
        suffix_at: head.suffix_at,
        suffix_len: head.unshared as usize,
    })
}

// How many bytes a row may share. A restart shares nothing, whatever key stands before it.
pub fn may_share(restart: bool, previous_len: usize) -> usize
    ensures { MayShare restart previous_len result }
{
    if restart { 0 } else { previous_len }
}

// The three lengths as they are written, and where the suffix starts. No sum of two 32-bit numbers wraps a usize.
#[derive(Clone, Copy)]
struct Lengths {
    shared: u32,
    unshared: u32,
    value_len: u32,
    suffix_at: usize,
}

fn lengths_at(s: &[u8], at: usize) -> Result<Lengths, Refusal>
    ensures { says_lengths result ≡ lengths_at s.now at }
{
    let shared = utils_decode::decode_varint(s, at)?;
    let unshared = utils_decode::decode_varint(s, shared.next)?;
    let value_len = utils_decode::decode_varint(s, unshared.next)?;
    Ok(Lengths {
        shared: shared.value,
        unshared: unshared.value,
        value_len: value_len.value,
        suffix_at: value_len.next,
    })
}

// The lengths of a row whose key is allowed.
fn head_at(s: &[u8], at: usize, previous_len: usize, restart: bool) -> Result<Lengths, Refusal>
    ensures { says_lengths result ≡ head_at s.now at previous_len restart }
{
    let head = lengths_at(s, at)?;
    let shared = head.shared as usize;
    let unshared = head.unshared as usize;
    let most = may_share(restart, previous_len);
    if most < shared {
        return Err(Refusal::BadShare);
    }
    if shared + unshared == 0 {
        return Err(Refusal::EmptyKey);
    }
    if basics::MAX_KEY < shared + unshared {
        return Err(Refusal::KeyTooLong);
    }
    Ok(head)
}

// Value bytes that a tombstone was written with are dropped.
pub fn held_as(kind: Kind, start: usize, len: usize) -> ValueDeletable
    ensures { HeldAs kind start len result }
{
    match kind {
        Kind::Value => ValueDeletable::Value { start, len },
        Kind::Tombstone => ValueDeletable::Tombstone,
        Kind::Merge => ValueDeletable::Merge { start, len },
    }
}

// What stands from the value to the flags, and where the times start.
#[derive(Clone, Copy)]
struct Body {
    held: ValueDeletable,
    seq: u64,
    flags: RowFlags,
    next: usize,
}

// No sum wraps for a head that was read from `s`.
fn body_at(s: &[u8], head: Lengths) -> Result<Body, Refusal>
    requires { (head.suffix_at ≤ length s.now) × (head.unshared ≤ max_key) }
    ensures { says_body result ≡ body_at s.now (lengths_from head) }
{
    let value_len = head.value_len as usize;
    if basics::MAX_VALUE < value_len {
        return Err(Refusal::ValueTooLong);
    }
    let value_at = head.suffix_at + head.unshared as usize;
    let seq_at = value_at + value_len;
    // Eight bytes of seq and one of flags: one test for all that stands before the times.
    let next = seq_at + 9;
    if s.len() < next {
        return Err(Refusal::InputEnds);
    }
    let seq = buf::get_u64(s, seq_at)?;
    let flags = row_flags_decode::decode_flags(s[seq.next])?;
    let held = held_as(flags.kind, value_at, value_len);
    Ok(Body {
        held,
        seq: seq.value,
        flags,
        next,
    })
}

fn row_of(at: usize, head: Lengths, body: Body, times: Times) -> Row
    ensures { row_from result ≡ row_is at (lengths_from head) (body_from body) (times_from times) }
{
    Row {
        start: at,
        next: times.next,
        shared: head.shared as usize,
        suffix_at: head.suffix_at,
        suffix_len: head.unshared as usize,
        held: body.held,
        seq: body.seq,
        expire: times.expire,
        create: times.create,
    }
}
