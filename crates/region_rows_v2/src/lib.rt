// What the loops over the rows of a region share: the region in which a cursor stands, its bounds read once.
// Follows slatedb 0.16.0, src/block_iterator_v2.rs (Apache License 2.0), and is changed: plain rows of one region are stepped over with no test of the block between them.
#![tactic(auto)]

ghost use Rattle.std.specs.Prelude.{◌≡◌};
ghost use Rattle.region_rows_v2.specs.Promise.{BoundsOf};

use basics::IterationOrder;
use place_v2::Place;
use trailer::Region;

// How many bytes of rows a block has, and the bounds of one of its regions.
#[derive(Clone, Copy)]
pub struct Bounds {
    pub size: usize,
    pub region: Region,
}

// The region that an ascending cursor goes on in. None where it goes on in none, for whatever reason: a step tells which.
pub fn bounds_of(block: &[u8], p: Place) -> Option<Bounds>
    ensures { BoundsOf p block.now result }
{
    let order = p.order;
    let IterationOrder::Ascending = order else {
        return None;
    };
    if p.done {
        return None;
    }
    let Ok(t) = trailer::trailer_of(block) else {
        return None;
    };
    if t.count <= p.region {
        return None;
    }
    if basics::MAX_KEY < p.key_len {
        return None;
    }
    let Ok(region) = trailer::region_of(block, t, p.region) else {
        return None;
    };
    if p.at < region.start {
        return None;
    }
    if basics::wrong_after(p.at - region.start, p.number) {
        return None;
    }
    Some(Bounds {
        size: t.size,
        region,
    })
}
