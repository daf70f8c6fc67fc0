// The trailer of a block, written: the restarts' offsets and their count.
// Follows slatedb 0.16.0, src/format/block.rs, `encode` (Apache License 2.0), and is changed: it writes into a lent buffer, and too little room is a refusal.
#![tactic(auto)]

ghost use Rattle.std.specs.Prelude.{◌≡◌, ◌%◌};
ghost use Rattle.trailer_encode.specs.Promise.{PutsTrailer};

use basics::Refusal;

// Two bytes hold the low 16 bits of a count.
fn low_16(n: usize) -> u16
    ensures { result ≡ n % 65536 }
{
    (n % 65536) as u16
}

// Writes the first `count` offsets, or all where there are fewer, and then how many they are. The room is tested before the
// first store, since a refusal writes nothing.
pub fn put_trailer(
    buf: &mut [u8],
    at: usize,
    offsets: &[u16],
    count: usize,
) -> Result<usize, Refusal>
    ensures { PutsTrailer offsets.now count buf.old at result buf.new }
{
    let n = numbers::least(count, offsets.len());
    if buf.len() < at {
        return Err(Refusal::BufferTooSmall);
    }
    // Two bytes for each offset, and two for their count.
    if (buf.len() - at) / 2 <= n {
        return Err(Refusal::BufferTooSmall);
    }
    let mut next = at;
    for &offset in &offsets[..n] {
        // Never refused: there is room.
        next = buf_mut::put_u16(buf, next, offset)?;
    }
    buf_mut::put_u16(buf, next, low_16(n))
}
