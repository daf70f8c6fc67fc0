// Numbers read at a place of a lent slice, high byte first: the reading half of the `bytes` crate that slatedb uses.
// Follows slatedb 0.16.0, src/format/row_codec_v2.rs and row.rs, which read so (Apache License 2.0), and is changed: a buffer is a lent slice with a place in it,
// each reader answers the place after what it read, and an input that ends is a refusal.
#![tactic(auto)]

ghost use Rattle.std.specs.Prelude.{◌≡◌, ◌≤◌, ◌<◌, ◌+◌, length};
ghost use Rattle.layout.specs.Laws.Place.{pair_at, four_at};
ghost use Rattle.buf.specs.Promise.{ReadsWord, ReadsSigned, ReadsEight, ReadsNarrow, ReadsBytes};

use basics::{Read, Refusal};

// Two bytes, high byte first.
fn two_at(s: &[u8], at: usize) -> u64
    requires { at + 2 ≤ length s.now }
    ensures { (result ≡ pair_at s.now at) × (result < 65536) }
{
    let a = u64::from(s[at]);
    let b = u64::from(s[at + 1]);
    a * 256 + b
}

// Four bytes, high byte first. LLVM makes one load and a byte swap of sums in this form; of sums of pairs it does not.
fn four_at(s: &[u8], at: usize) -> u64
    requires { at + 4 ≤ length s.now }
    ensures { (result ≡ four_at s.now at) × (result < 4294967296) }
{
    let a = u64::from(s[at]);
    let b = u64::from(s[at + 1]);
    let half = at + 2;
    let c = u64::from(s[half]);
    let d = u64::from(s[half + 1]);
    ((a * 256 + b) * 256 + c) * 256 + d
}

// Reads the two bytes at `at`, high byte first.
pub fn get_u16(s: &[u8], at: usize) -> Result<Read<u64>, Refusal>
    ensures { ReadsNarrow 2 s.now at result }
{
    if numbers::rest_from(s.len(), at) < 2 {
        return Err(Refusal::InputEnds);
    }
    let value = two_at(s, at);
    Ok(Read {
        value,
        next: at + 2,
    })
}

// Reads the four bytes at `at`, high byte first.
pub fn get_u32(s: &[u8], at: usize) -> Result<Read<u64>, Refusal>
    ensures { ReadsNarrow 4 s.now at result }
{
    if numbers::rest_from(s.len(), at) < 4 {
        return Err(Refusal::InputEnds);
    }
    let value = four_at(s, at);
    Ok(Read {
        value,
        next: at + 4,
    })
}

// Reads the eight bytes at `at`, high byte first.
pub fn get_u64(s: &[u8], at: usize) -> Result<Read<u64>, Refusal>
    ensures { ReadsWord s.now at result }
{
    if numbers::rest_from(s.len(), at) < 8 {
        return Err(Refusal::InputEnds);
    }
    let high = four_at(s, at);
    let low = four_at(s, at + 4);
    Ok(Read {
        value: high * 4294967296 + low,
        next: at + 8,
    })
}

// The two bytes at `at`, high byte first; 0 where they are not all there.
pub fn two(s: &[u8], at: usize) -> usize
    ensures { ReadsBytes 2 s.now at result }
{
    let Ok(short) = get_u16(s, at) else {
        return 0;
    };
    short.value as usize
}

// The four bytes at `at`, high byte first; 0 where they are not all there.
pub fn four(s: &[u8], at: usize) -> usize
    ensures { ReadsBytes 4 s.now at result }
{
    let Ok(half) = get_u32(s, at) else {
        return 0;
    };
    half.value as usize
}

// The eight bytes at `at`, high byte first; 0 where they are not all there. Of a part of eight bytes the compiler drops the test.
pub fn eight(s: &[u8], at: usize) -> u64
    ensures { ReadsEight s.now at result }
{
    match get_u64(s, at) {
        Ok(word) => word.value,
        Err(_) => 0,
    }
}

// Reads the eight bytes at `at` as a signed number, two's complement, high byte first.
pub fn get_i64(s: &[u8], at: usize) -> Result<Read<i64>, Refusal>
    ensures { ReadsSigned s.now at result }
{
    let word = get_u64(s, at)?;
    Ok(Read {
        value: numbers::from_bits(word.value),
        next: word.next,
    })
}
