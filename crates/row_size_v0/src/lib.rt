// A V0 row's size, with every test in its order. The full key's length is tested, and restored, as a V2 row's is.
// Follows slatedb 0.16.0, src/format/row.rs (Apache License 2.0), and is changed: the size is told from lengths alone, and what they can break is a refusal.
#![tactic(auto)]

ghost use Rattle.std.specs.Prelude.{◌≡◌, ◌≤◌};
ghost use Rattle.basics.specs.Says.{says_kind};
ghost use Rattle.row_size_v0.specs.Parts.{length_size};
ghost use Rattle.row_size_v0.specs.Promise.{Sizes};

use basics::{Kind, Refusal};

// How many bytes the value's length takes: a tombstone has none.
fn value_len_size(kind: Kind) -> usize
    ensures { (result ≡ length_size (says_kind kind)) × (result ≤ 4) }
{
    match kind {
        Kind::Value => 4,
        Kind::Merge => 4,
        Kind::Tombstone => 0,
    }
}

// The size of a row, from lengths alone: 1, 2, 3.
pub fn encoded_size(
    shared: usize,
    suffix_len: usize,
    kind: Kind,
    value_len: usize,
    expire: Option<i64>,
    create: Option<i64>,
) -> Result<usize, Refusal>
    ensures { Sizes shared suffix_len kind value_len expire create result }
{
    row_size_v2::key_len(shared, suffix_len)?;
    let kept = row_flags::kept_len(kind, value_len);
    if basics::MAX_VALUE < kept {
        return Err(Refusal::ValueTooLong);
    }
    let times = row_flags::time_len(expire) + row_flags::time_len(create);
    // 4: the lengths of the share and the suffix; 9: the sequence number and the flags
    Ok(4 + 9 + times + value_len_size(kind) + kept + suffix_len)
}
