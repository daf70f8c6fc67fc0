// What a row holds beside its key, as every block format has it: its flags and times, written.
// Follows slatedb 0.16.0, src/format/row.rs (Apache License 2.0), and is changed: times are written to a lent slice at a place, and too
// little room is a refusal.
#![tactic(auto)]

ghost use Rattle.std.specs.Prelude.{◌≡◌, ◌≤◌};
ghost use Rattle.layout.specs.Row.{kind_bits, if_so, present, time_bytes};
ghost use Rattle.basics.specs.Says.{says_kind, says_time};
ghost use Rattle.buf_mut.specs.Promise.{Puts};
ghost use Rattle.row_flags.specs.Says.{mark_bytes};
ghost use Rattle.row_flags.specs.Promise.{Flagged, Keeps, TimeLength};

use basics::{Kind, Refusal};

// What a row holds beside its key and its value's bytes, as it is offered.
#[derive(Clone, Copy)]
pub struct RowFields {
    pub kind: Kind,
    pub seq: u64,
    pub expire: Option<i64>,
    pub create: Option<i64>,
}

// How many of the bytes that are offered as the value are written: of a tombstone's none.
pub fn kept_len(kind: Kind, value_len: usize) -> usize
    ensures { Keeps kind value_len result }
{
    match kind {
        Kind::Value => value_len,
        Kind::Merge => value_len,
        Kind::Tombstone => 0,
    }
}

// ---- flags

const TOMBSTONE: u8 = 1;

const HAS_EXPIRE_TS: u8 = 2;

const HAS_CREATE_TS: u8 = 4;

const MERGE_OPERAND: u8 = 8;

fn kind_flag(kind: Kind) -> u8
    ensures { (result ≡ kind_bits (says_kind kind)) × (result ≤ 8) }
{
    match kind {
        Kind::Value => 0,
        Kind::Merge => MERGE_OPERAND,
        Kind::Tombstone => TOMBSTONE,
    }
}

fn time_flag(time: Option<i64>, flag: u8) -> u8
    ensures { (result ≡ if_so (present (says_time time)) flag) × (result ≤ flag) }
{
    match time {
        None => 0,
        Some(_) => flag,
    }
}

pub fn flags(row: RowFields) -> u8
    ensures { Flagged row result }
{
    let kind = row.kind;
    let expire = row.expire;
    let create = row.create;
    kind_flag(kind) + time_flag(expire, HAS_EXPIRE_TS) + time_flag(create, HAS_CREATE_TS)
}

// ---- times

// How many bytes a time takes.
pub fn time_len(time: Option<i64>) -> usize
    ensures { TimeLength time result }
{
    match time {
        None => 0,
        Some(_) => 8,
    }
}

// Writes a time at `at`, and nothing for an absent one.
pub fn write_time(output: &mut [u8], at: usize, time: Option<i64>) -> Result<usize, Refusal>
    ensures { Puts (time_bytes (says_time time)) output.old at result output.new }
{
    let Some(t) = time else {
        // Nothing, too, has no place past the end.
        if output.len() < at {
            return Err(Refusal::BufferTooSmall);
        }
        return Ok(at);
    };
    buf_mut::put_i64(output, at, t)
}

// Writes a row's flags at `at`, then its expire time, then its create time.
pub fn write_marks(output: &mut [u8], at: usize, row: RowFields) -> Result<usize, Refusal>
    ensures { Puts (mark_bytes row) output.old at result output.new }
{
    let expire = row.expire;
    let create = row.create;
    let len = 1 + time_len(expire) + time_len(create);
    if numbers::rest_from(output.len(), at) < len {
        return Err(Refusal::BufferTooSmall);
    }
    output[at] = flags(row);
    let a = buf_mut::place_after(write_time(output, at + 1, expire));
    write_time(output, a, create)
}
