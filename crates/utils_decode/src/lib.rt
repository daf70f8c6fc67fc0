// Varints read from a place of a lent slice.
// Follows slatedb 0.16.0, src/utils.rs (Apache License 2.0), and is changed: a buffer is a lent slice with a place in it, what the input can break is a refusal, and
// so is a spelling longer than its number needs.
#![tactic(auto)]

ghost use Rattle.std.specs.Prelude.{◌≡◌, ◌<◌, ◌≤◌, ◌+◌, ◌*◌, ◌^◌, length, get_or};
ghost use Rattle.utils_decode.specs.Parts.{ended_by};
ghost use Rattle.utils_decode.specs.Promise.{ReadsVarint};

use basics::{Read, Refusal};

// A number with its last byte, which follows others: one of 0 adds nothing, so the number needs fewer bytes.
fn ended(acc: u32, w: u32, b: u32, next: usize) -> Result<Read<u32>, Refusal>
    requires { acc + w * b < 2 ^ 32 }
    ensures { result ≡ ended_by acc w b next }
{
    if b == 0 {
        return Err(Refusal::VarintTooLarge);
    }
    Ok(Read {
        value: acc + w * b,
        next,
    })
}

// The varint at `at`, whose first byte says that more follow.
fn get_varint(s: &[u8], at: usize, first: u32) -> Result<Read<u32>, Refusal>
    requires { (at < length s.now) × (first ≡ get_or s.now at 0) × (128 ≤ first) × (first < 256) }
    ensures { ReadsVarint s.now at result }
{
    let mut acc: u32 = first - 128;
    let mut w: u32 = 128;
    for i in 1..4 {
        if s.len() <= at + i {
            return Err(Refusal::InputEnds);
        }
        let b = u32::from(s[at + i]);
        if b < 128 {
            return ended(acc, w, b, at + i + 1);
        }
        acc += w * (b - 128);
        w *= 128;
    }
    if s.len() <= at + 4 {
        return Err(Refusal::InputEnds);
    }
    let b = u32::from(s[at + 4]);
    // The fifth byte has the top four of 32 bits, and none follows it.
    if 15 < b {
        return Err(Refusal::VarintTooLarge);
    }
    ended(acc, w, b, at + 5)
}

// Reads the varint at `at`. Most are one byte: these take two tests.
pub fn decode_varint(s: &[u8], at: usize) -> Result<Read<u32>, Refusal>
    ensures { ReadsVarint s.now at result }
{
    if s.len() <= at {
        return Err(Refusal::InputEnds);
    }
    let first = u32::from(s[at]);
    if first < 128 {
        return Ok(Read {
            value: first,
            next: at + 1,
        });
    }
    get_varint(s, at, first)
}
