// A seek of the block iterator of format V2, over key bytes that stay where they are: a cursor's numbers go in and come back by value, and the key that it
// carries is lent. The search and the walks work with numbers alone; only where a walk up lands is a key put together, in the lent bytes.
// Follows slatedb 0.16.0, src/block_iterator_v2.rs (Apache License 2.0), and is changed: no region is cached, every call tests the block for itself, and what
// its bytes can break is a refusal that writes nothing.
#![tactic(auto)]

ghost use Rattle.std.specs.Prelude.{◌≡◌, List, ℕ, suc, ◌-◌, length};
ghost use Rattle.layout.specs.Res.{ok, bind};
ghost use Rattle.layout.specs.Cursor.{ascending, descending};
ghost use Rattle.layout.specs.Limits.{max_key};
ghost use Rattle.layout.specs.Seek.{walk_up, walk_down, seek};
ghost use Rattle.layout.specs.Trailer.{trailer_of};
ghost use Rattle.trailer.specs.Says.{trailer_from};
ghost use Rattle.place_v2.specs.declared.Place.{Place};
ghost use Rattle.seek_in_place_v2.specs.Parts.{landed_at, over_at, SetsOut, sought};
ghost use Rattle.seek_in_place_v2.specs.Promise.{Finds, SeeksInPlace};

use basics::{IterationOrder, Refusal};
use block_restarts_v2::Start;
use place_v2::Place;
use trailer::Trailer;

// Where a seek left the cursor, and how many restart keys the search read: it stands where the target belongs, or none is left. A refusal moves nothing.
#[derive(Clone, Copy)]
pub enum Found {
    Landed { place: Place, reads: usize },
    Done { place: Place, reads: usize },
}

// ---- where a seek ends

fn landed(
    order: IterationOrder,
    region: usize,
    at: usize,
    number: usize,
    key_len: usize,
    reads: usize,
) -> Found
    ensures { result ≡ landed_at order region at number key_len reads }
{
    Found::Landed {
        place: Place {
            order,
            region,
            at,
            number,
            key_len,
            done: false,
        },
        reads,
    }
}

// "Done" leaves the cursor marked, with no key.
fn over(order: IterationOrder, region: usize, at: usize, number: usize, reads: usize) -> Found
    ensures { result ≡ over_at order region at number reads }
{
    Found::Done {
        place: Place {
            order,
            region,
            at,
            number,
            key_len: 0,
            done: true,
        },
        reads,
    }
}

// ---- the walks

// From region to region, up to the first row at or above the target; past the last one stand as many rows as it has.
fn walk_up(
    key: &mut [u8],
    block: &[u8],
    t: Trailer,
    target: &[u8],
    start: Start,
) -> Result<Found, Refusal>
    requires { (length key.old ≡ max_key) × SetsOut block.now (trailer_from t) start.region }
    ensures { (p : Place) → Finds (bind (walk_up (t.count - start.region) block.now (trailer_from t) target.now start.region) (sought start.reads)) p key.old result key.new }
{
    let size = t.size;
    let mut passed: usize = 0;
    for index in start.region..t.count {
        let region = trailer::region_of(block, t, index)?;
        let stop = block_regions_v2::walk_into(&block[..size], region, target, key)?;
        if stop.at < region.end {
            return Ok(landed(
                IterationOrder::Ascending,
                index,
                stop.at,
                stop.number,
                stop.key_len,
                start.reads,
            ));
        }
        passed = stop.number;
    }
    Ok(over(
        IterationOrder::Ascending,
        t.count - 1,
        size,
        passed,
        start.reads,
    ))
}

// From region to region, down to the last row at or below the target. The key is neither used nor changed.
fn walk_down(block: &[u8], t: Trailer, target: &[u8], start: Start) -> Result<Found, Refusal>
    requires { SetsOut block.now (trailer_from t) start.region }
    ensures { (p : Place) (k : List ℕ) → Finds (bind (walk_down (suc start.region) block.now (trailer_from t) target.now start.region) (sought start.reads)) p k result k }
{
    let size = t.size;
    for index in (0..start.region + 1).rev() {
        let region = trailer::region_of(block, t, index)?;
        let last = whole_regions_v2::last_at_or_below(&block[..size], region, target)?;
        if region.start < last.at {
            return Ok(landed(
                IterationOrder::Descending,
                index,
                last.at,
                last.number,
                0,
                start.reads,
            ));
        }
    }
    Ok(over(IterationOrder::Descending, 0, 0, 0, start.reads))
}

fn seek_ascending(key: &mut [u8], block: &[u8], t: Trailer, target: &[u8]) -> Result<Found, Refusal>
    requires { (length key.old ≡ max_key) × (trailer_of block.now ≡ ok (trailer_from t)) }
    ensures { (p : Place) → Finds (seek ascending block.now target.now) p key.old result key.new }
{
    let start = block_restarts_v2::find_restart_for_key_ascending(block, t, target)?;
    walk_up(key, block, t, target, start)
}

fn seek_descending(block: &[u8], t: Trailer, target: &[u8]) -> Result<Found, Refusal>
    requires { trailer_of block.now ≡ ok (trailer_from t) }
    ensures { (p : Place) (k : List ℕ) → Finds (seek descending block.now target.now) p k result k }
{
    let start = block_restarts_v2::find_restart_for_key_descending(block, t, target)?;
    walk_down(block, t, target, start)
}

// A seek, over a cursor whose key bytes are lent. It starts afresh: only the order is taken from the cursor. Tested in this order: that they are MAX_KEY (18),
// the trailer (14), then what the search and the walk meet. All tests come before the first write.
pub fn seek_in_place(
    key: &mut [u8],
    p: Place,
    block: &[u8],
    target: &[u8],
) -> Result<Found, Refusal>
    ensures { SeeksInPlace p key.old block.now target.now result key.new }
{
    if key.len() != basics::MAX_KEY {
        return Err(Refusal::BadState);
    }
    let t = trailer::trailer_of(block)?;
    let order = p.order;
    match order {
        IterationOrder::Ascending => seek_ascending(key, block, t, target),
        IterationOrder::Descending => seek_descending(block, t, target),
    }
}
