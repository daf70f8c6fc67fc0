// A row's flags and times, as every block format has them, read.
// Follows slatedb 0.16.0, src/format/row.rs (Apache License 2.0), and is changed: times are read from a lent slice at a place, and what the input can break is a
// refusal.
#![tactic(auto)]

ghost use Rattle.std.specs.Prelude.{◌≡◌};
ghost use Rattle.layout.specs.RowRead.{time_at};
ghost use Rattle.row_flags_decode.specs.Says.{says_flags};
ghost use Rattle.row_flags_decode.specs.Parts.{flags_good, says_time_at};
ghost use Rattle.row_flags_decode.specs.Promise.{ReadsFlags, ReadsTimes};

use basics::{Kind, Read, Refusal};

// ---- flags

// What a flags byte says: the kind, and which times stand after it.
#[derive(Clone, Copy)]
pub struct RowFlags {
    pub kind: Kind,
    pub expire: bool,
    pub create: bool,
}

fn good_flags(kind: Kind, expire: bool, create: bool) -> Result<RowFlags, Refusal>
    ensures { says_flags result ≡ flags_good kind expire create }
{
    Ok(RowFlags {
        kind,
        expire,
        create,
    })
}

// Tombstone 1, expire 2, create 4, merge 8.
pub fn decode_flags(flags: u8) -> Result<RowFlags, Refusal>
    ensures { ReadsFlags flags result }
{
    match flags {
        0 => good_flags(Kind::Value, false, false),
        1 => good_flags(Kind::Tombstone, false, false),
        2 => good_flags(Kind::Value, true, false),
        3 => good_flags(Kind::Tombstone, true, false),
        4 => good_flags(Kind::Value, false, true),
        5 => good_flags(Kind::Tombstone, false, true),
        6 => good_flags(Kind::Value, true, true),
        7 => good_flags(Kind::Tombstone, true, true),
        8 => good_flags(Kind::Merge, false, false),
        10 => good_flags(Kind::Merge, true, false),
        12 => good_flags(Kind::Merge, false, true),
        14 => good_flags(Kind::Merge, true, true),
        9 | 11 | 13 | 15 => Err(Refusal::TombstoneWithMerge),
        16..=255 => Err(Refusal::UnknownFlags),
    }
}

// ---- times

// The time at `at` where it is flagged, and the place after it.
fn time_at(flagged: bool, s: &[u8], at: usize) -> Result<Read<Option<i64>>, Refusal>
    ensures { says_time_at result ≡ time_at flagged s.now at }
{
    if flagged {
        let number = buf::get_i64(s, at)?;
        return Ok(Read {
            value: Some(number.value),
            next: number.next,
        });
    }
    Ok(Read {
        value: None,
        next: at,
    })
}

// The two times that were read, and the place after them.
#[derive(Clone, Copy)]
pub struct Times {
    pub expire: Option<i64>,
    pub create: Option<i64>,
    pub next: usize,
}

// Reads the times that the flags say stand at `at`. The expire time stands first.
pub fn times_at(s: &[u8], at: usize, flags: RowFlags) -> Result<Times, Refusal>
    ensures { ReadsTimes s.now at flags result }
{
    let expire = time_at(flags.expire, s, at)?;
    let create = time_at(flags.create, s, expire.next)?;
    Ok(Times {
        expire: expire.value,
        create: create.value,
        next: create.next,
    })
}
