// The trailer of a block, read: the restarts' offsets and their count; and the restart regions that the offsets bound.
// Follows slatedb 0.16.0, src/format/block.rs, and `restart_region_end` of src/block_iterator_v2.rs (Apache License 2.0), and is
// changed: offsets are read where they stand, each when it is used, and what a block's bytes can break is a refusal.
#![tactic(auto)]

ghost use Rattle.std.specs.Prelude.{cond, ◌≡◌, ◌≤◌, ◌<◌, ◌+◌, ◌*◌, length};
ghost use Rattle.layout.specs.Trailer.{short_at, first_of, region_of, all_offsets};
ghost use Rattle.basics.specs.Answers.{says_verdict};
ghost use Rattle.trailer.specs.Says.{trailer_from, says_region};
ghost use Rattle.trailer.specs.Promise.{ReadsTrailer, TestsTrailer, ReadsRegion, ReadsRegionBy, TestsOffsets};

use basics::Refusal;

// How many restarts there are, and how many bytes of rows.
#[derive(Clone, Copy)]
pub struct Trailer {
    pub count: usize,
    pub size: usize,
}

// A restart region runs from `start` to before `end`. `reach` is the last position that an ascending cursor may have in it:
// before its end, and in the last region also at the end.
#[derive(Clone, Copy)]
pub struct Region {
    pub start: usize,
    pub end: usize,
    pub reach: usize,
}

// The two bytes at `at`, high byte first.
fn short_at(block: &[u8], at: usize) -> usize
    requires { at + 2 ≤ length block.now }
    ensures { (result ≡ short_at block.now at) × (result < 65536) }
{
    let high = usize::from(block[at]);
    let low = usize::from(block[at + 1]);
    high * 256 + low
}

// Reads the count and tests it against the block: 14. A good one counts at least one restart.
pub fn trailer_of(block: &[u8]) -> Result<Trailer, Refusal>
    ensures { ReadsTrailer block.now result }
{
    let len = block.len();
    if len < 2 {
        return Err(Refusal::BadTrailer);
    }
    let count = short_at(block, len - 2);
    let taken = 2 + 2 * count;
    if (count == 0) | (len < taken) {
        return Err(Refusal::BadTrailer);
    }
    Ok(Trailer {
        count,
        size: len - taken,
    })
}

// Whether these numbers are those of a block of `len` bytes with a region `r`. They may be any, so no sum is made of them that
// may wrap.
pub fn has_region(t: Trailer, len: usize, r: usize) -> bool
    ensures { TestsTrailer t len r result }
{
    if (len < 2) | (t.count <= r) {
        return false;
    }
    let rest = len - 2;
    if rest / 2 < t.count {
        return false;
    }
    t.size == rest - 2 * t.count
}

// What must be 0: the offset of region 0.
fn first_of(r: usize, offset: usize) -> usize
    ensures { result ≡ first_of r offset }
{
    if r == 0 { offset } else { 0 }
}

// One of two numbers, with no branch.
fn pick(first: bool, a: usize, b: usize) -> usize
    ensures { result ≡ cond first a b }
{
    if first { a } else { b }
}

// Region `r` of a trailer that is the block's: 15. The two bytes after the last offset are the count's, so that the next offset can be read before
// it is known whether there is one.
fn region_in(block: &[u8], t: Trailer, r: usize) -> Result<Region, Refusal>
    requires { (t.size + (2 + 2 * t.count) ≡ length block.now) × (r < t.count) }
    ensures { says_region result ≡ region_of block.now (trailer_from t) r }
{
    let size = t.size;
    let start = short_at(block, size + 2 * r);
    let next = short_at(block, size + 2 * (r + 1));
    let last = t.count <= r + 1;
    let end = pick(last, size, next);
    let limit = pick(last, size + 1, size);
    if (0 < first_of(r, start)) | (end <= start) | (limit <= end) {
        return Err(Refusal::BadOffset);
    }
    Ok(Region {
        start,
        end,
        reach: pick(last, end, end - 1),
    })
}

// Region `r` of a trailer that is handed in: 18 for numbers that are not the block's or no region's, then 15 for its offset
// and the next. No other offset is looked at. (`restart_region_end` in the Rust.)
pub fn region_of(block: &[u8], t: Trailer, r: usize) -> Result<Region, Refusal>
    ensures { ReadsRegion block.now t r result }
{
    if !has_region(t, block.len(), r) {
        return Err(Refusal::BadState);
    }
    region_in(block, t, r)
}

// The trailer read, and region `r` of it: 14, 18, 15. One test serves the trailer and the number; which of them is refused is
// asked only where it is not passed.
pub fn region_by(block: &[u8], r: usize) -> Result<Region, Refusal>
    ensures { ReadsRegionBy block.now r result }
{
    let len = block.len();
    if len < 2 {
        return Err(Refusal::BadTrailer);
    }
    let count = short_at(block, len - 2);
    let taken = 2 + 2 * count;
    if (count <= r) | (len < taken) {
        trailer_of(block)?;
        return Err(Refusal::BadState);
    }
    let t = Trailer {
        count,
        size: len - taken,
    };
    region_in(block, t, r)
}

fn offsets_rise(block: &[u8], t: Trailer) -> Result<(), Refusal>
    requires { (t.size + (2 + 2 * t.count) ≡ length block.now) × (1 ≤ t.count) }
    ensures { says_verdict result ≡ all_offsets block.now (trailer_from t) }
{
    let size = t.size;
    let count = t.count;
    let first = short_at(block, size);
    if 0 < first {
        return Err(Refusal::BadOffset);
    }
    if size <= first {
        return Err(Refusal::BadOffset);
    }
    let mut previous = first;
    for r in 1..count {
        let offset = short_at(block, size + 2 * r);
        if offset <= previous {
            return Err(Refusal::BadOffset);
        }
        if size <= offset {
            return Err(Refusal::BadOffset);
        }
        previous = offset;
    }
    Ok(())
}

// All of 15: the first offset is 0, each is above the one before and below the data's length. 18 for numbers that are not the
// block's; a trailer that counts no region is no block's.
pub fn all_offsets(block: &[u8], t: Trailer) -> Result<(), Refusal>
    ensures { TestsOffsets block.now t result }
{
    if !has_region(t, block.len(), 0) {
        return Err(Refusal::BadState);
    }
    offsets_rise(block, t)
}
