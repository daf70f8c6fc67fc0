// Numbers and bytes written at a place of a lent slice, high byte first: the writing half of the `bytes` crate that slatedb uses.
// Follows slatedb 0.16.0, src/format/row_codec_v2.rs and src/format/block.rs, which write so (Apache License 2.0), and is changed: a buffer is a lent slice
// with a place in it, each writer answers the place after what it wrote, and too little room is a refusal that writes nothing.
#![tactic(auto)]

ghost use Rattle.std.specs.Prelude.{◌≤◌};
ghost use Rattle.layout.specs.Fixed.{big, bits};
ghost use Rattle.buf_mut.specs.Promise.{Puts, PlaceAfter};

use basics::Refusal;

// The place after what was written, by those who have tested the room: to them no writer refuses.
pub fn place_after(put: Result<usize, Refusal>) -> usize
    ensures { PlaceAfter put result }
{
    put.unwrap_or(0)
}

// The lowest `n` bytes of `v`, high byte first.
fn put_be(buf: &mut [u8], at: usize, v: u64, n: usize) -> Result<usize, Refusal>
    requires { (1 ≤ n) × (n ≤ 8) }
    ensures { Puts (big n v) buf.old at result buf.new }
{
    if numbers::rest_from(buf.len(), at) < n {
        return Err(Refusal::BufferTooSmall);
    }
    for i in 0..n {
        buf[at + i] = ((v >> (8 * (n - i - 1))) % 256) as u8;
    }
    Ok(at + n)
}

// Writes `v` at `at` in two bytes, high byte first.
pub fn put_u16(buf: &mut [u8], at: usize, v: u16) -> Result<usize, Refusal>
    ensures { Puts (big 2 v) buf.old at result buf.new }
{
    put_be(buf, at, v as u64, 2)
}

// Writes `v` at `at` in four bytes, high byte first.
pub fn put_u32(buf: &mut [u8], at: usize, v: u32) -> Result<usize, Refusal>
    ensures { Puts (big 4 v) buf.old at result buf.new }
{
    put_be(buf, at, v as u64, 4)
}

// Writes `v` at `at` in eight bytes, high byte first.
pub fn put_u64(buf: &mut [u8], at: usize, v: u64) -> Result<usize, Refusal>
    ensures { Puts (big 8 v) buf.old at result buf.new }
{
    put_be(buf, at, v, 8)
}

// Writes `z` at `at` in eight bytes, two's complement, high byte first.
pub fn put_i64(buf: &mut [u8], at: usize, z: i64) -> Result<usize, Refusal>
    ensures { Puts (big 8 (bits z)) buf.old at result buf.new }
{
    put_be(buf, at, numbers::to_bits(z), 8)
}

// Copies all of `src` to `at`.
pub fn copy_in(buf: &mut [u8], at: usize, src: &[u8]) -> Result<usize, Refusal>
    ensures { Puts src.now buf.old at result buf.new }
{
    if copies::copy_all(buf, at, src) {
        return Ok(at + src.len());
    }
    Err(Refusal::BufferTooSmall)
}
