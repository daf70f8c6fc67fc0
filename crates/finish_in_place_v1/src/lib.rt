// A V1 block's builder as its numbers: whether they can belong to the lent buffers, and the block built.
// Follows slatedb 0.16.0, src/format/block.rs (Apache License 2.0), and is changed: the numbers come in by value, the rows' bytes and their offsets are in buffers that are
// lent, and what the numbers or the room can break is a refusal, which changes nothing.
#![tactic(auto)]

ghost use Rattle.finish_in_place_v1.specs.Promise.{Judges, Finishes};

use basics::Refusal;
use state_v1::State;

// No row takes fewer bytes: two lengths of two, the sequence number and the flags.
const LEAST_ROW: usize = 13;

// Whether the state can't belong to buffers of these lengths. Its numbers may be any: none goes into a product before a test bounds it.
pub fn is_bad_state(s: State, data_len: usize, places_len: usize) -> bool
    ensures { Judges s data_len places_len result }
{
    if basics::MAX_BLOCK < s.block_size {
        return true;
    }
    if data_len < s.used {
        return true;
    }
    if places_len < s.rows {
        return true;
    }
    if basics::MAX_RESTARTS < s.rows {
        return true;
    }
    if s.used < LEAST_ROW * s.rows {
        return true;
    }
    if basics::MAX_KEY < s.first_key_len {
        return true;
    }
    if s.rows == 0 {
        return 0 < s.used;
    }
    false
}

// Puts the trailer after the rows, and answers the block's length: 18, 7, 6. The trailer tests its own room, which is that of 6.
pub fn build_in_place(s: State, data: &mut [u8], offsets: &[u16]) -> Result<usize, Refusal>
    ensures { Finishes s «data».old offsets.now result «data».new }
{
    if is_bad_state(s, data.len(), offsets.len()) {
        return Err(Refusal::BadState);
    }
    if s.rows == 0 {
        return Err(Refusal::EmptyBlock);
    }
    trailer_encode::put_trailer(data, s.used, offsets, s.rows)
}
