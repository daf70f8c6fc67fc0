// A V2 row's full key and its size, with every test in its order.
// Follows slatedb 0.16.0, src/format/row_codec_v2.rs (Apache License 2.0), and is changed: a key is restored to a lent slice, and what the lengths or the room
// can break is a refusal.
#![tactic(auto)]

ghost use Rattle.std.specs.Prelude.{◌≡◌, ◌≤◌, ◌<◌, ◌^◌};
ghost use Rattle.layout.specs.Varint.{varint_length};
ghost use Rattle.row_size_v2.specs.Promise.{TestsKey, Sizes, Restores};

use basics::{Kind, Refusal};

// ---- a full key

// The full key's length: 1, 2. Each part is tested by itself first, since their sum may wrap; a key with such a part is over its limit, and not empty.
pub fn key_len(shared: usize, suffix_len: usize) -> Result<usize, Refusal>
    ensures { TestsKey shared suffix_len result }
{
    if basics::MAX_KEY < shared {
        return Err(Refusal::KeyTooLong);
    }
    if basics::MAX_KEY < suffix_len {
        return Err(Refusal::KeyTooLong);
    }
    let len = shared + suffix_len;
    if len == 0 {
        return Err(Refusal::EmptyKey);
    }
    if basics::MAX_KEY < len {
        return Err(Refusal::KeyTooLong);
    }
    Ok(len)
}

// Restores the full key at the start of `out`, given the previous key: 13, 1, 2, 19.
pub fn restore_full_key(
    out: &mut [u8],
    previous_key: &[u8],
    shared: usize,
    key_suffix: &[u8],
) -> Result<usize, Refusal>
    ensures { Restores previous_key.now shared key_suffix.now out.old result out.new }
{
    if previous_key.len() < shared {
        return Err(Refusal::BadShare);
    }
    let len = key_len(shared, key_suffix.len())?;
    if out.len() < len {
        return Err(Refusal::KeyBufferTooShort);
    }
    let at = buf_mut::place_after(buf_mut::copy_in(out, 0, &previous_key[..shared]));
    Ok(buf_mut::place_after(buf_mut::copy_in(out, at, key_suffix)))
}

// ---- size

// How many bytes a length takes that has passed its test, and so fits 32 bits. Most are below 128.
fn length_len(n: usize) -> usize
    requires { n < 2 ^ 32 }
    ensures { (result ≡ varint_length n) × (result ≤ 5) }
{
    if n < 128 {
        return 1;
    }
    utils::varint_len(n as u32)
}

// The size of a row, from lengths alone: 1, 2, 3.
pub fn encoded_size(
    shared: usize,
    suffix_len: usize,
    kind: Kind,
    value_len: usize,
    expire: Option<i64>,
    create: Option<i64>,
) -> Result<usize, Refusal>
    ensures { Sizes shared suffix_len kind value_len expire create result }
{
    key_len(shared, suffix_len)?;
    let kept = row_flags::kept_len(kind, value_len);
    if basics::MAX_VALUE < kept {
        return Err(Refusal::ValueTooLong);
    }
    let lengths = length_len(shared) + length_len(suffix_len) + length_len(kept);
    let times = row_flags::time_len(expire) + row_flags::time_len(create);
    // 9: the sequence number and the flags
    Ok(lengths + suffix_len + kept + 9 + times)
}
