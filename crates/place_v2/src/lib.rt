// A cursor's numbers, without the bytes of its key: a block opened, and whether a row is left.
// Follows slatedb 0.16.0, src/block_iterator_v2.rs (Apache License 2.0), and is changed: a cursor is numbers that come back by value, every call tests the block
// for itself, and what its bytes can break is a refusal.
#![tactic(auto)]

ghost use Rattle.std.specs.Prelude.{◌≡◌, List, ℕ};
ghost use Rattle.layout.specs.Cursor.{open_block};
ghost use Rattle.layout.specs.Res.{ok};
ghost use Rattle.layout.specs.Trailer.{trailer_of};
ghost use Rattle.basics.specs.Answers.{says_same};
ghost use Rattle.basics.specs.Says.{says_order};
ghost use Rattle.trailer.specs.Says.{trailer_from};
ghost use Rattle.place_v2.specs.Parts.{fresh, last_rows, says_opened};
ghost use Rattle.place_v2.specs.Promise.{OpensPlace, TellsPlaceEmpty};

use basics::{IterationOrder, Refusal};
use trailer::Trailer;

// A cursor without the bytes of its key: those stay where they are. `number` is how many rows of its region end at or before its position. The numbers that
// change from step to step do not stand side by side, so that none is loaded in one with another that was stored apart; the region's changes with the region
// alone.
#[derive(Clone, Copy)]
pub struct Place {
    pub number: usize,
    pub order: IterationOrder,
    pub at: usize,
    pub done: bool,
    pub key_len: usize,
    pub region: usize,
}

// Beside a refusal stands a cursor at 0 in region 0.
#[derive(Clone, Copy)]
pub struct OpenedPlace {
    pub place: Place,
    pub answer: Result<(), Refusal>,
}

// A cursor with no key.
fn fresh(order: IterationOrder, region: usize, at: usize, number: usize) -> Place
    ensures { result ≡ fresh order region at number }
{
    Place {
        number,
        order,
        at,
        done: false,
        key_len: 0,
        region,
    }
}

// How many rows the last region has: they are read, to the data's end.
fn last_rows(block: &[u8], t: Trailer) -> Result<usize, Refusal>
    requires { trailer_of block.now ≡ ok (trailer_from t) }
    ensures { says_same result ≡ last_rows block.now (trailer_from t) }
{
    let last = t.count - 1;
    let region = trailer::region_of(block, t, last)?;
    let size = t.size;
    whole_regions_v2::count_rows(&block[..size], region)
}

// The cursor of a block whose offsets are all tested. Descending it is at the data's end, with the last region's rows passed; what they refuse, opening refuses.
fn opened(block: &[u8], order: IterationOrder) -> Result<Place, Refusal>
    ensures { (key : List ℕ) → says_opened key result ≡ open_block block.now (says_order order) }
{
    let t = trailer::trailer_of(block)?;
    trailer::all_offsets(block, t)?;
    match order {
        IterationOrder::Ascending => Ok(fresh(order, 0, 0, 0)),
        IterationOrder::Descending => {
            let number = last_rows(block, t)?;
            Ok(fresh(order, t.count - 1, t.size, number))
        }
    }
}

// Opens a block with all its offsets tested, and descending with its last region read: 14, 15, the rows' refusals.
pub fn open_place(block: &[u8], order: IterationOrder) -> OpenedPlace
    ensures { OpensPlace block.now order result }
{
    match opened(block, order) {
        Ok(place) => OpenedPlace {
            place,
            answer: Ok(()),
        },
        Err(refusal) => OpenedPlace {
            place: fresh(order, 0, 0, 0),
            answer: Err(refusal),
        },
    }
}

// Whether the cursor is known to have no row left: ascending by its position or its mark; descending by its mark alone, so not before a step or a seek has
// said "done". Only the trailer is tested: 14.
pub fn is_empty_place(p: Place, block: &[u8]) -> Result<bool, Refusal>
    ensures { TellsPlaceEmpty p block.now result }
{
    let t = trailer::trailer_of(block)?;
    if p.done {
        return Ok(true);
    }
    let at = p.at;
    let order = p.order;
    match order {
        IterationOrder::Ascending => Ok(t.size <= at),
        IterationOrder::Descending => Ok(false),
    }
}
