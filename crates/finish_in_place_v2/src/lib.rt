// A V2 block's builder as its numbers: whether they can belong to the lent buffers, and the block built.
// Follows slatedb 0.16.0, src/format/block_v2.rs (Apache License 2.0), and is changed: the numbers come in by value, the rows' bytes and the restarts' offsets are in
// buffers that are lent, and what the numbers or the room can break is a refusal, which changes nothing.
#![tactic(auto)]

ghost use Rattle.std.specs.Prelude.{◌≡◌, cond, not, ◌≤◌, eqb};
ghost use Rattle.layout.specs.Builder.{restarts_of};
ghost use Rattle.layout.specs.Limits.{max_interval, max_restarts};
ghost use Rattle.finish_in_place_v2.specs.Promise.{Judges, Finishes};

use basics::Refusal;
use state_v2::State;

// ---- the state

// Whether the restarts are not as many as rows divided by interval, rounded up: by a product, which takes less time than a division.
fn is_miscounted(restarts: usize, rows: usize, interval: usize) -> bool
    requires { (1 ≤ interval) × (interval ≤ max_interval) × (restarts ≤ max_restarts) }
    ensures { result ≡ not (eqb restarts (restarts_of rows interval)) }
{
    let full = restarts * interval;
    if full < rows {
        return true;
    }
    interval <= full - rows
}

// Bytes that belong to no row: all of them where there is none.
fn stray_bytes(counter: usize, used: usize) -> usize
    ensures { result ≡ cond (eqb counter 0) used 0 }
{
    if counter == 0 { used } else { 0 }
}

// Whether the state can't belong to buffers of these lengths. Its numbers may be any: none goes into a sum or a product before a test bounds it.
pub fn is_bad_state(s: State, data_len: usize, places_len: usize) -> bool
    ensures { Judges s data_len places_len result }
{
    if basics::MAX_BLOCK < s.block_size {
        return true;
    }
    if s.restart_interval == 0 {
        return true;
    }
    if basics::MAX_INTERVAL < s.restart_interval {
        return true;
    }
    if data_len < s.used {
        return true;
    }
    if places_len < s.restarts {
        return true;
    }
    if basics::MAX_RESTARTS < s.restarts {
        return true;
    }
    if is_miscounted(s.restarts, s.counter, s.restart_interval) {
        return true;
    }
    if s.used < basics::LEAST_ROW * s.counter {
        return true;
    }
    if 0 < stray_bytes(s.counter, s.used) {
        return true;
    }
    if basics::MAX_KEY < s.last_key_len {
        return true;
    }
    false
}

// ---- a block, built

// Puts the trailer after the rows, and answers the length of the block, which stands at the start of the data buffer: 18, 7, 6. The trailer tests its own room, which is that of 6.
pub fn build_in_place(s: State, data: &mut [u8], restarts: &[u16]) -> Result<usize, Refusal>
    ensures { Finishes s «data».old restarts.now result «data».new }
{
    if is_bad_state(s, data.len(), restarts.len()) {
        return Err(Refusal::BadState);
    }
    if s.counter == 0 {
        return Err(Refusal::EmptyBlock);
    }
    trailer_encode::put_trailer(data, s.used, restarts, s.restarts)
}
