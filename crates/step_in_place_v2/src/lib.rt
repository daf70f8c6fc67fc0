// The block iterator of format V2 over key bytes that stay where they are: a cursor's numbers go in and come back by value, and the key that it carries is lent to
// a step and worked on in place.
// Follows slatedb 0.16.0, src/block_iterator_v2.rs (Apache License 2.0), and is changed: no region is cached, a step back reads its region again, every call
// tests block and cursor for itself, and what they can break is a refusal that writes nothing.
#![tactic(auto)]

ghost use Rattle.std.specs.Prelude.{◌≡◌, List, ℕ, ◌≤◌, ◌<◌, ◌+◌, length, take, Ok, unwrap_or};
ghost use Rattle.layout.specs.Res.{ok};
ghost use Rattle.layout.specs.Cursor.{ascending, descending, step_up, step_down, step_back_in};
ghost use Rattle.layout.specs.Laws.Carry.{suffix_of};
ghost use Rattle.layout.specs.Limits.{max_key};
ghost use Rattle.layout.specs.Number.{number_at};
ghost use Rattle.layout.specs.Place.{splice};
ghost use Rattle.layout.specs.Trailer.{trailer_of, data_of, region_of};
ghost use Rattle.row_decode_v2.specs.Says.{row_from};
ghost use Rattle.trailer.specs.Says.{trailer_from, region_from};
ghost use Rattle.place_v2.specs.Says.{view_in};
ghost use Rattle.step_in_place_v2.specs.Parts.{finished, found_at, Stands, StandsAs, passed, Fits, LooksAhead, LooksBehind};
ghost use Rattle.step_in_place_v2.specs.Promise.{Moves, StepsInPlace};

use basics::{IterationOrder, Refusal};
use place_v2::Place;
use row_decode_v2::Row;
use trailer::{Region, Trailer};

// What a step answers: the row, its region and its number there, with the place past it; or that none is left. A refusal moves nothing.
#[derive(Clone, Copy)]
pub enum Moved {
    Found {
        place: Place,
        region: usize,
        number: usize,
        row: Row,
    },
    Done(Place),
}

// The row that an ascending cursor stands before, with its region.
#[derive(Clone, Copy)]
struct Ahead {
    row: Row,
    region: Region,
}

// The region, with its index, whose row before the position of a descending cursor comes next, and how many of its rows are said to end there.
#[derive(Clone, Copy)]
struct Behind {
    index: usize,
    region: Region,
    passed: Option<usize>,
}

// ---- the writes of a step

// Puts the row's suffix over the key of the row before: the bytes then carry the row's key.
fn put_suffix(key: &mut [u8], data: &[u8], row: Row)
    requires { (row.shared + row.suffix_len ≤ length key.old) × (row.suffix_at + row.suffix_len ≤ length «data».now) }
    ensures { key.new ≡ splice key.old row.shared (suffix_of «data».now (row_from row)) }
{
    let from = row.suffix_at;
    let end = from + row.suffix_len;
    let _ = buf_mut::copy_in(key, row.shared, &data[from..end]);
}

// Gives the first `n` bytes of the key.
fn give_key(out: &mut [u8], key: &[u8], n: usize)
    requires { (n ≤ length key.now) × (n ≤ length out.old) }
    ensures { out.new ≡ splice out.old 0 (take n key.now) }
{
    let _ = buf_mut::copy_in(out, 0, &key[..n]);
}

// A step that says "done" sets only the mark.
fn finished(p: Place) -> Moved
    ensures { result ≡ finished p }
{
    let mut place = p;
    place.done = true;
    Moved::Done(place)
}

// The one place where a row's region and number are put into an answer.
fn found(place: Place, region: usize, number: usize, row: Row) -> Moved
    ensures { result ≡ found_at place region number row }
{
    Moved::Found {
        place,
        region,
        number,
        row,
    }
}

// ---- ascending

// All that an ascending step tests once the mark is tested, with nothing written: 15 for the region, 18 for the position and the number, the row, 19. None at
// the end of the last region. (`decode_entry_at_current_offset` in the Rust.)
fn look_ahead(p: Place, block: &[u8], t: Trailer, room: usize) -> Result<Option<Ahead>, Refusal>
    requires { Stands ascending p block.now (trailer_from t) }
    ensures { LooksAhead p block.now (trailer_from t) room result }
{
    let at = p.at;
    let size = t.size;
    let region = trailer::region_of(block, t, p.region)?;
    if at < region.start {
        return Err(Refusal::BadState);
    }
    if region.reach < at {
        return Err(Refusal::BadState);
    }
    if basics::wrong_after(at - region.start, p.number) {
        return Err(Refusal::BadState);
    }
    if at == region.end {
        return Ok(None);
    }
    let row = row_span_v2::decoded_in(&block[..size], at, region.start, region.end, p.key_len)?;
    if room < row.shared + row.suffix_len {
        return Err(Refusal::KeyBufferTooShort);
    }
    Ok(Some(Ahead { row, region }))
}

// Moves past a row and gives its key. A finished region hands over to the next at once, then with no row passed and no key. (`advance_past_current_entry` in
// the Rust.)
fn pass(key: &mut [u8], p: Place, block: &[u8], t: Trailer, ahead: Ahead, out: &mut [u8]) -> Moved
    requires key_len { length key.old ≡ max_key }
    requires stands { Stands ascending p block.now (trailer_from t) }
    requires fits { Fits p (data_of block.now (trailer_from t)) (region_from ahead.region) (length out.old) (row_from ahead.row) }
    ensures { Moves (ok (passed (view_in p key.old) (data_of block.now (trailer_from t)) (region_from ahead.region) (row_from ahead.row))) p key.old out.old (Ok result) key.new out.new }
{
    let mut place = p;
    let size = t.size;
    let row = ahead.row;
    let n = row.shared + row.suffix_len;
    put_suffix(key, &block[..size], row);
    give_key(out, key, n);
    place.at = row.next;
    if ahead.region.reach < row.next {
        place.region += 1;
        place.number = 0;
        place.key_len = 0;
        return found(place, p.region, p.number, row);
    }
    place.number += 1;
    place.key_len = n;
    found(place, p.region, p.number, row)
}

fn next_ascending(
    key: &mut [u8],
    p: Place,
    block: &[u8],
    t: Trailer,
    out: &mut [u8],
) -> Result<Moved, Refusal>
    requires key_len { length key.old ≡ max_key }
    requires stands { Stands ascending p block.now (trailer_from t) }
    ensures { Moves (step_up (view_in p key.old) block.now (trailer_from t) (length out.old)) p key.old out.old result key.new out.new }
{
    let looked = look_ahead(p, block, t, out.len())?;
    match looked {
        Some(ahead) => Ok(pass(key, p, block, t, ahead, out)),
        None => Ok(finished(p)),
    }
}

// ---- descending: the key is neither used nor changed, whatever its bytes are

// The region that a descending step reads once the mark is tested: 15 for the cursor's region, 18 for the position unless a row can end there; at the
// region's start 18 for a number that is not 0, then the region before, and 15 for it: None where that start is the first one's. The trailer has both
// regions.
// (`move_to_previous_region` in the Rust.)
fn look_behind(p: Place, block: &[u8], t: Trailer) -> Result<Option<Behind>, Refusal>
    requires { Stands descending p block.now (trailer_from t) }
    ensures { LooksBehind p block.now (trailer_from t) result }
{
    let at = p.at;
    let index = p.region;
    let region = trailer::region_of(block, t, index)?;
    if at < region.start {
        return Err(Refusal::BadState);
    }
    if region.end < at {
        return Err(Refusal::BadState);
    }
    if region.start < at {
        return Ok(Some(Behind {
            index,
            region,
            passed: Some(p.number),
        }));
    }
    if 0 < p.number {
        return Err(Refusal::BadState);
    }
    if index == 0 {
        return Ok(None);
    }
    let before = trailer::region_of(block, t, index - 1)?;
    Ok(Some(Behind {
        index: index - 1,
        region: before,
        passed: None,
    }))
}

// Moves before the row that ends where the cursor stands, read from the start of its region, and gives its key.
fn back(
    p: Place,
    block: &[u8],
    t: Trailer,
    behind: Behind,
    out: &mut [u8],
) -> Result<Moved, Refusal>
    requires { (trailer_of block.now ≡ ok (trailer_from t)) × (behind.region.start < p.at) × (region_of block.now (trailer_from t) behind.index ≡ ok (region_from behind.region)) }
    ensures { (k : List ℕ) → Moves (step_back_in (view_in p k) block.now (trailer_from t) (length out.old) behind.index (region_from behind.region) (unwrap_or behind.passed (number_at block.now (trailer_from t) behind.index p.at))) p k out.old result k out.new }
{
    let size = t.size;
    let region = behind.region;
    let ended = block_regions_v2::row_ending_at(&block[..size], region, p.at, behind.passed, out)?;
    let mut place = p;
    place.region = behind.index;
    place.at = ended.row.start;
    place.number = ended.number;
    Ok(found(place, behind.index, ended.number, ended.row))
}

fn next_descending(p: Place, block: &[u8], t: Trailer, out: &mut [u8]) -> Result<Moved, Refusal>
    requires { Stands descending p block.now (trailer_from t) }
    ensures { (k : List ℕ) → Moves (step_down (view_in p k) block.now (trailer_from t) (length out.old)) p k out.old result k out.new }
{
    let looked = look_behind(p, block, t)?;
    match looked {
        Some(behind) => back(p, block, t, behind, out),
        None => Ok(finished(p)),
    }
}

// ---- one step

// What is tested before the direction matters: that the lent key bytes are MAX_KEY (18), the trailer (14), the region number and the key's length (18), the mark.
// None is left of a cursor that is marked.
fn stand(held: usize, p: Place, block: &[u8]) -> Result<Option<Trailer>, Refusal>
    ensures { StandsAs p held block.now result }
{
    if held != basics::MAX_KEY {
        return Err(Refusal::BadState);
    }
    let t = trailer::trailer_of(block)?;
    if t.count <= p.region {
        return Err(Refusal::BadState);
    }
    if basics::MAX_KEY < p.key_len {
        return Err(Refusal::BadState);
    }
    if p.done {
        return Ok(None);
    }
    Ok(Some(t))
}

// One step, over a cursor whose key bytes are lent. Tested in this order: that they are MAX_KEY (18), the trailer (14), the region number and the key's length
// (18), the mark, then what the step's direction asks for. All tests come before the first write.
pub fn next_in_place(
    key: &mut [u8],
    p: Place,
    block: &[u8],
    out: &mut [u8],
) -> Result<Moved, Refusal>
    ensures { StepsInPlace p key.old block.now out.old result key.new out.new }
{
    let standing = stand(key.len(), p, block)?;
    let Some(t) = standing else {
        return Ok(Moved::Done(p));
    };
    let order = p.order;
    match order {
        IterationOrder::Ascending => next_ascending(key, p, block, t, out),
        IterationOrder::Descending => next_descending(p, block, t, out),
    }
}
