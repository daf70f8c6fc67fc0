// Varints at a place of a lent slice: their length, and written.
// Follows slatedb 0.16.0, src/utils.rs (Apache License 2.0), and is changed: a buffer is a lent slice with a place in it, the writer answers the place after
// what it wrote, and too little room is a refusal.
#![tactic(auto)]

ghost use Rattle.std.specs.Prelude.{[], ◌∷◌};
ghost use Rattle.layout.specs.Varint.{varint};
ghost use Rattle.buf_mut.specs.Promise.{Puts};
ghost use Rattle.utils.specs.Promise.{VarintLength};

use basics::Refusal;

// How many bytes the varint of `v` takes, with no loop over them: seven bits a byte, and a byte for zero too.
pub fn varint_len(v: u32) -> usize
    ensures { VarintLength v result }
{
    if v == 0 {
        return 1;
    }
    let b = 32 - u32::leading_zeros(v);
    ((b + 6) / 7) as usize
}

fn put_byte(buf: &mut [u8], at: usize, b: u8) -> Result<usize, Refusal>
    ensures { Puts (b ∷ []) buf.old at result buf.new }
{
    if at < buf.len() {
        buf[at] = b;
        return Ok(at + 1);
    }
    Err(Refusal::BufferTooSmall)
}

// A varint of any length. The room is tested before the first store, since a refusal writes nothing.
fn put_varint(buf: &mut [u8], at: usize, v: u32) -> Result<usize, Refusal>
    ensures { Puts (varint v) buf.old at result buf.new }
{
    if numbers::rest_from(buf.len(), at) < varint_len(v) {
        return Err(Refusal::BufferTooSmall);
    }
    let mut rest = v;
    let mut i = at;
    while rest >= 128 {
        buf[i] = (128 + rest % 128) as u8;
        rest = rest / 128;
        i += 1;
    }
    buf[i] = rest as u8;
    Ok(i + 1)
}

// Writes `v` at `at` in the fewest bytes. Most lengths are below 128: these take one test and one store.
pub fn encode_varint(buf: &mut [u8], at: usize, v: u32) -> Result<usize, Refusal>
    ensures { Puts (varint v) buf.old at result buf.new }
{
    if v < 128 {
        return put_byte(buf, at, v as u8);
    }
    put_varint(buf, at, v)
}
