// The reads of a restart region that give a key: back to the row that ends at a position, and up to a target. Each counts the rows that it reads, so that it
// can say which row of the region it found. Neither carries a key: the walk to a target carries how many bytes the key before begins with in common with it,
// the read back where in the data the first bytes of the key before stand. The key that is wanted is put together at the end, once all tests are made.
// Follows slatedb 0.16.0, src/block_iterator_v2.rs (Apache License 2.0), and is changed: no rows are cached, no key is carried, and what the bytes or the
// numbers handed in can break is a refusal that writes nothing.
#![tactic(auto)]

ghost use Rattle.std.specs.Prelude.{◌≡◌, cond, ◌≤◌, ◌<◌, ◌+◌, ◌-◌, ltb, length, take};
ghost use Rattle.layout.specs.Key.{Key};
ghost use Rattle.layout.specs.Place.{splice};
ghost use Rattle.trailer.specs.Says.{region_from};
ghost use Rattle.block_regions_v2.specs.Rows.{clipped, Filling};
ghost use Rattle.block_regions_v2.specs.Climb.{Based};
ghost use Rattle.block_regions_v2.specs.Known.{known_after};
ghost use Rattle.block_regions_v2.specs.Parts.{halted_is, Halts, Stands, Reaches};
ghost use Rattle.block_regions_v2.specs.Promise.{EndsAt, WalksInto};

use basics::Refusal;
use row_decode_v2::Row;
use trailer::Region;

// The row that ends at a position, and its number in the region. Its key stands in the lent buffer.
#[derive(Clone, Copy)]
pub struct Ended {
    pub row: Row,
    pub number: usize,
}

// Where a walk stopped, how long the key of the row before is, and how many rows of the region end at or before it.
#[derive(Clone, Copy)]
pub struct Stop {
    pub at: usize,
    pub key_len: usize,
    pub number: usize,
}

// Where a walk stopped, with the length of the key before and how many rows were read before; and the last row that shared no more than the match, with the
// length of the key before that one.
#[derive(Clone, Copy)]
struct Halted {
    at: usize,
    len: usize,
    number: usize,
    from: usize,
    from_len: usize,
}

// The first `len` bytes of a key, where they stand in the data: `split` of them from `first` on, the others from `second` on.
#[derive(Clone, Copy)]
struct Known {
    first: usize,
    split: usize,
    second: usize,
    len: usize,
}

// The first row that reaches a position, or that is refused, with how many rows were read before it, the length of the key before it, and what is known of that
// key.
#[derive(Clone, Copy)]
struct Reached {
    at: usize,
    len: usize,
    number: usize,
    known: Known,
}

// ---- a key put together

// As many bytes of `src` as there is room for, at `at`.
fn put_clipped(key: &mut [u8], at: usize, src: &[u8])
    ensures { key.new ≡ clipped key.old at src.now }
{
    if key.len() <= at {
        return;
    }
    let room = key.len() - at;
    if room < src.len() {
        let _ = buf_mut::copy_in(key, at, &src[..room]);
        return;
    }
    let _ = buf_mut::copy_in(key, at, src);
}

// The first bytes of the key of the row that ends at `stop`, as many as `key` has. Rows that were read before are read again, from one on whose shared bytes
// stand in `key` already. A key on the way may be longer: what has no room is left out.
fn rebuild_key(
    data: &[u8],
    region: Region,
    from: usize,
    from_len: usize,
    stop: usize,
    key: &mut [u8],
)
    ensures { (wanted : Key) → Filling «data».now (region_from region) stop wanted key.old from from_len → key.new ≡ take (length key.old) wanted }
{
    if key.len() == 0 {
        return;
    }
    let mut at = from;
    let mut len = from_len;
    while at < stop {
        // Never refused: the rows were read before.
        let Ok(row) = row_span_v2::span_in(data, at, region.start, region.end, len) else {
            return;
        };
        let start = row.suffix_at;
        let end = start + row.suffix_len;
        put_clipped(key, row.shared, &data[start..end]);
        len = row.shared + row.suffix_len;
        at = row.next;
    }
}

// ---- up to a target

// What stays of `old` where a row shares more than the match.
fn latest(matched: usize, shared: usize, old: usize, new: usize) -> usize
    ensures { result ≡ cond (ltb matched shared) old new }
{
    if matched < shared { old } else { new }
}

fn halt(at: usize, len: usize, number: usize, from: usize, from_len: usize) -> Halted
    ensures { result ≡ halted_is at len number from from_len }
{
    Halted {
        at,
        len,
        number,
        from,
        from_len,
    }
}

// Whole rows from a region's start to the first whose key is at or above the target, or to the region's end.
fn walk_place(data: &[u8], region: Region, target: &[u8]) -> Result<Halted, Refusal>
    requires { region.end ≤ length «data».now }
    ensures { Halts «data».now (region_from region) target.now result }
{
    let mut at = region.start;
    let mut len: usize = 0;
    let mut number: usize = 0;
    let mut matched: usize = 0;
    let mut from = region.start;
    let mut from_len: usize = 0;
    while at < region.end {
        let row = row_span_v2::span_in(data, at, region.start, region.end, len)?;
        let start = row.suffix_at;
        let end = start + row.suffix_len;
        let now = match_keys::match_up(target, matched, row.shared, &data[start..end]);
        if !now.below {
            return Ok(halt(at, len, number, from, from_len));
        }
        from = latest(matched, row.shared, from, at);
        from_len = latest(matched, row.shared, from_len, len);
        matched = now.len;
        len = row.shared + row.suffix_len;
        at = row.next;
        number += 1;
    }
    Ok(halt(at, len, number, from, from_len))
}

// The first bytes of the key of the row before the place where a walk stopped, as many as `key` has. What the row to start from shares, the target has too.
fn rebuild_from(data: &[u8], region: Region, there: Halted, target: &[u8], key: &mut [u8])
    ensures { (before : Key) → Based «data».now (region_from region) target.now there.from there.from_len there.at before → length key.old ≤ length before → key.new ≡ take (length key.old) before }
{
    put_clipped(key, 0, target);
    rebuild_key(data, region, there.from, there.from_len, there.at, key);
}

// The walk up to a target. Where it stops inside the region, the key of the row before stands at the start of `key` after it: 19 where it has no room there.
// (The walk in the Rust's `seek` ascending.)
pub fn walk_into(
    data: &[u8],
    region: Region,
    target: &[u8],
    key: &mut [u8],
) -> Result<Stop, Refusal>
    ensures { WalksInto «data».now region target.now key.old result key.new }
{
    if data.len() < region.end {
        return Err(Refusal::BadState);
    }
    let there = walk_place(data, region, target)?;
    let at = there.at;
    let key_len = there.len;
    let number = there.number;
    let stop = Stop {
        at,
        key_len,
        number,
    };
    if region.end <= at {
        return Ok(stop);
    }
    if key.len() < key_len {
        return Err(Refusal::KeyBufferTooShort);
    }
    rebuild_from(data, region, there, target, &mut key[..key_len]);
    Ok(stop)
}

// ---- back to a position

// What is known of a row's key, by what is known of the key before: its suffix stands at `place`, and it is `len` bytes long.
fn known_after(k: Known, place: usize, shared: usize, len: usize) -> Known
    ensures { result ≡ known_after k place shared len }
{
    if shared == 0 {
        return Known {
            first: place,
            split: len,
            second: place,
            len,
        };
    }
    if shared <= k.split {
        return Known {
            first: k.first,
            split: shared,
            second: place,
            len,
        };
    }
    if shared < k.len {
        return Known {
            first: k.first,
            split: k.split,
            second: k.second,
            len: shared,
        };
    }
    k
}

fn reach(data: &[u8], region: Region, stop: usize) -> Reached
    requires { region.start < stop }
    ensures { Reaches «data».now (region_from region) stop result }
{
    let mut at = region.start;
    let mut len: usize = 0;
    let mut number: usize = 0;
    let mut known = Known {
        first: 0,
        split: 0,
        second: 0,
        len: 0,
    };
    loop {
        let Ok(row) = row_span_v2::span_in(data, at, region.start, region.end, len) else {
            return Reached {
                at,
                len,
                number,
                known,
            };
        };
        if stop <= row.next {
            return Reached {
                at,
                len,
                number,
                known,
            };
        }
        len = row.shared + row.suffix_len;
        known = known_after(known, row.suffix_at, row.shared, len);
        at = row.next;
        number += 1;
    }
}

// The first `shared` bytes of the key before the row that was reached, from where they are known to stand, or by a second read.
fn put_shared(data: &[u8], region: Region, there: Reached, shared: usize, out: &mut [u8])
    requires shared_in_bounds { shared ≤ length out.old }
    requires split_in_bounds { (there.known.first + there.known.split ≤ length «data».now) × (there.known.second + (there.known.len - there.known.split) ≤ length «data».now) }
    ensures { (before : Key) → Stands «data».now (region_from region) there before → shared ≤ length before → out.new ≡ splice out.old 0 (take shared before) }
{
    let k = there.known;
    if k.len < shared {
        rebuild_key(data, region, region.start, 0, there.at, &mut out[..shared]);
        return;
    }
    let n = numbers::least(shared, k.split);
    let first = k.first;
    let end = first + n;
    let _ = buf_mut::copy_in(out, 0, &data[first..end]);
    let second = k.second;
    let last = second + (shared - n);
    let _ = buf_mut::copy_in(out, n, &data[second..last]);
}

// The row of a region that ends at `stop`, with its key at the start of `out`: rows up to there are tested as they are read, and no row after it is; then
// 18, where none ends there or another number of rows is said to (`passed`; None says none), and 19. (`load_restart_region` in the Rust, which keeps all rows.)
pub fn row_ending_at(
    data: &[u8],
    region: Region,
    stop: usize,
    passed: Option<usize>,
    out: &mut [u8],
) -> Result<Ended, Refusal>
    ensures { EndsAt «data».now region stop passed out.old result out.new }
{
    if stop <= region.start {
        return Err(Refusal::BadState);
    }
    let there = reach(data, region, stop);
    let at = there.at;
    let row = row_span_v2::row_in(data, at, region.start, region.end, there.len)?;
    if stop < row.next {
        return Err(Refusal::BadState);
    }
    let number = there.number;
    let ended = number + 1;
    if passed.unwrap_or(ended) != ended {
        return Err(Refusal::BadState);
    }
    let shared = row.shared;
    if out.len() < shared + row.suffix_len {
        return Err(Refusal::KeyBufferTooShort);
    }
    put_shared(data, region, there, shared, out);
    let start = row.suffix_at;
    let end = start + row.suffix_len;
    let _ = buf_mut::copy_in(out, shared, &data[start..end]);
    Ok(Ended { row, number })
}
