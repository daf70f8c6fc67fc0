// The check of a whole block: its trailer, all its offsets, then row after row, with the order of the rows last of each.
// slatedb 0.16.0 has no such check. This one is added: it reads the layout of src/format/block_v2.rs and
// src/format/row_codec_v2.rs (Apache License 2.0), takes any bytes, walks the rows where they stand and copies only the
// suffixes of their keys.
#![tactic(auto)]

ghost use Rattle.std.specs.Prelude.{◌≡◌, ◌<◌, length};
ghost use Rattle.layout.specs.Res.{ok};
ghost use Rattle.layout.specs.Trailer.{trailer_of, all_offsets};
ghost use Rattle.trailer.specs.Says.{trailer_from};
ghost use Rattle.basics.specs.Answers.{says_same};
ghost use Rattle.block_check_v2.specs.Walk.{rows_of, Stands, Leaves, Tries};
ghost use Rattle.block_check_v2.specs.Promise.{Checks, MayFollow};

use basics::Refusal;
use std::cmp::Ordering;
use trailer::Trailer;

// Few keys are longer. An array of so many bytes is cleared for each block; one for the longest key only where it is needed.
const SHORT_KEY: usize = 256;

// What the rows passed so far leave: where the next region starts and its number, the length of the carried key, the sequence
// number of the last of them, and how many they are.
#[derive(Clone, Copy)]
struct Passed {
    at: usize,
    region: usize,
    key_len: usize,
    seq: u64,
    rows: usize,
}

// Whether a row may stand after one whose sequence number is `before`, by how its key stands to that one's: of equal keys the
// newest stands first.
pub fn may_follow(order: Ordering, before: u64, seq: u64) -> bool
    ensures { MayFollow order before seq result }
{
    match order {
        Ordering::Less => false,
        Ordering::Equal => seq < before,
        Ordering::Greater => true,
    }
}

// Walks the rows of one region, whose bounds are read once. `key` carries the key of the row before, and `seq` its number, also
// over a restart. `None`: a row's key is longer than the bytes that are lent for it. That says nothing of the block.
fn check_region(
    block: &[u8],
    t: Trailer,
    key: &mut [u8],
    p: Passed,
) -> Result<Option<Passed>, Refusal>
    requires block_value { trailer_of block.now ≡ ok (trailer_from t) }
    requires at_lt_size { p.at < t.size }
    requires stands { Stands block.now (trailer_from t) p key.old }
    ensures { Leaves block.now (trailer_from t) p result key.new }
{
    let g = trailer::region_of(block, t, p.region)?;
    let size = t.size;
    let data = &block[..size];
    let mut at = p.at;
    let mut key_len = p.key_len;
    let mut seq = p.seq;
    let mut rows = p.rows;
    while at < g.end {
        let row = row_span_v2::numbered_in(data, at, g.start, g.end, key_len)?;
        let shared = row.shared;
        let from = row.suffix_at;
        let to = from + row.suffix_len;
        // 17: the shared bytes tell nothing, so the suffix is compared, before it is put, with what the carried key has there.
        let order = keys::compare(&data[from..to], &key[shared..key_len]);
        if !may_follow(order, seq, row.seq) {
            return Err(Refusal::KeyFalls);
        }
        key_len = shared + row.suffix_len;
        if key.len() < key_len {
            return Ok(None);
        }
        let _ = buf_mut::copy_in(key, shared, &data[from..to]);
        at = row.next;
        seq = row.seq;
        rows += 1;
    }
    Ok(Some(Passed {
        at,
        region: p.region + 1,
        key_len,
        seq,
        rows,
    }))
}

// Walks all rows, a region after another, and counts them; `None` as above.
fn check_rows(block: &[u8], t: Trailer, key: &mut [u8]) -> Result<Option<usize>, Refusal>
    requires block_value { trailer_of block.now ≡ ok (trailer_from t) }
    requires t_value { all_offsets block.now (trailer_from t) ≡ ok tt }
    ensures { Tries block.now (trailer_from t) (length key.old) result }
{
    let size = t.size;
    let mut p = Passed {
        at: 0,
        region: 0,
        key_len: 0,
        seq: 0,
        rows: 0,
    };
    while p.at < size {
        match check_region(block, t, key, p)? {
            Some(passed) => p = passed,
            None => return Ok(None),
        }
    }
    Ok(Some(p.rows))
}

// The same with room for the longest key. The array is made, and cleared, here alone.
fn check_long(block: &[u8], t: Trailer) -> Result<usize, Refusal>
    requires block_value { trailer_of block.now ≡ ok (trailer_from t) }
    requires t_value { all_offsets block.now (trailer_from t) ≡ ok tt }
    ensures { says_same result ≡ rows_of block.now (trailer_from t) }
{
    let mut key = [0; basics::MAX_KEY];
    // Never narrow: no row is read whose key is longer.
    let rows = check_rows(block, t, &mut key)?;
    rows.ok_or(Refusal::BadState)
}

// Checks a whole block of any bytes: 14, all of 15, then row by row, 17 last of its row. It answers how many rows there are.
pub fn check(block: &[u8]) -> Result<usize, Refusal>
    ensures { Checks block.now result }
{
    let t = trailer::trailer_of(block)?;
    trailer::all_offsets(block, t)?;
    let mut key = [0; SHORT_KEY];
    match check_rows(block, t, &mut key)? {
        Some(rows) => Ok(rows),
        None => check_long(block, t),
    }
}
