// The check of a whole block of the earlier format: its trailer, all its offsets, then row after row, with the order of the rows last of each.
// slatedb 0.16.0 has no such check. This one is added: it reads the layout of src/format/block.rs and src/format/row.rs (Apache License 2.0), takes any bytes,
// walks the rows where they stand and copies nothing: the first key stands in row 0, and of the row before only its share and the place of its suffix are kept.
#![tactic(auto)]

ghost use Rattle.std.specs.Prelude.{cond, ◌++◌, ◌≡◌, ◌<◌, ◌≤◌, ◌+◌, eqb, length, take, drop};
ghost use Rattle.layout.specs.Res.{ok};
ghost use Rattle.layout.specs.Key.{compare};
ghost use Rattle.layout.specs.Trailer.{trailer_of, all_offsets};
ghost use Rattle.layout_v1.specs.Laws.Check.{first_at, rows_of};
ghost use Rattle.basics.specs.Answers.{says_same};
ghost use Rattle.keys.specs.Says.{says_ordering};
ghost use Rattle.trailer.specs.Says.{trailer_from};
ghost use Rattle.block_check_v1.specs.Walk.{Stands, Leaves};
ghost use Rattle.block_check_v1.specs.Promise.{Checks};

use basics::Refusal;
use std::cmp::Ordering;
use trailer::Trailer;

// Row 0 starts at 0, and its suffix, the first key, after two lengths of two bytes.
const FIRST_KEY: usize = 4;

// What the rows passed so far leave: the first key's length, and of the last of them its share, its suffix and its sequence number.
#[derive(Clone, Copy)]
struct Passed {
    first_len: usize,
    shared: usize,
    suffix_at: usize,
    suffix_len: usize,
    seq: u64,
}

// How `a` and then `b`, as one key, stands to `c`.
fn compare_joined(a: &[u8], b: &[u8], c: &[u8]) -> Ordering
    ensures { says_ordering result ≡ compare (a.now ++ b.now) c.now }
{
    let n = a.len();
    if c.len() < n {
        return keys::compare(a, c);
    }
    keys::compare(a, &c[..n]).then_with(|| keys::compare(b, &c[n..]))
}

// How a row's key stands to the one before it. Bytes that both share tell nothing: those that only one shares are held against the other's suffix.
fn order_of(
    data: &[u8],
    shared: usize,
    suffix: &[u8],
    last_shared: usize,
    last_suffix: &[u8],
) -> Ordering
    requires { (first_at + shared ≤ length «data».now) × (first_at + last_shared ≤ length «data».now) }
    ensures { says_ordering result ≡ compare (take shared (drop first_at «data».now) ++ suffix.now) (take last_shared (drop first_at «data».now) ++ last_suffix.now) }
{
    let row_at = FIRST_KEY + shared;
    let last_at = FIRST_KEY + last_shared;
    if shared < last_shared {
        return compare_joined(&data[row_at..last_at], last_suffix, suffix).reverse();
    }
    compare_joined(&data[last_at..row_at], suffix, last_suffix)
}

// The first key's length after row `r`: row 0's key is the first.
fn first_after(r: usize, first_len: usize, suffix_len: usize) -> usize
    ensures { result ≡ cond (eqb r 0) suffix_len first_len }
{
    if r == 0 { suffix_len } else { first_len }
}

// Row `r`: 15 for its offset and the next, the row, then 17.
fn check_row(block: &[u8], t: Trailer, r: usize, p: Passed) -> Result<Passed, Refusal>
    requires block_value { trailer_of block.now ≡ ok (trailer_from t) }
    requires t_value { all_offsets block.now (trailer_from t) ≡ ok tt }
    requires r_lt_count { r < t.count }
    requires stands { Stands block.now (trailer_from t) r p }
    ensures { Leaves block.now (trailer_from t) r result }
{
    let g = trailer::region_of(block, t, r)?;
    let size = t.size;
    let data = &block[..size];
    // Row 0 may share nothing: before it the first key has no bytes.
    let row = row_decode_v0::decode_at(data, g.start, g.end, p.first_len)?;
    let from = row.suffix_at;
    let to = from + row.suffix_len;
    let last_from = p.suffix_at;
    let last_to = last_from + p.suffix_len;
    let order = order_of(
        data,
        row.shared,
        &data[from..to],
        p.shared,
        &data[last_from..last_to],
    );
    if !block_check_v2::may_follow(order, p.seq, row.seq) {
        return Err(Refusal::KeyFalls);
    }
    Ok(Passed {
        first_len: first_after(r, p.first_len, row.suffix_len),
        shared: row.shared,
        suffix_at: row.suffix_at,
        suffix_len: row.suffix_len,
        seq: row.seq,
    })
}

// Walks all rows, one after another.
fn check_rows(block: &[u8], t: Trailer) -> Result<usize, Refusal>
    requires block_value { trailer_of block.now ≡ ok (trailer_from t) }
    requires t_value { all_offsets block.now (trailer_from t) ≡ ok tt }
    ensures { says_same result ≡ rows_of block.now (trailer_from t) }
{
    let mut p = Passed {
        first_len: 0,
        shared: 0,
        suffix_at: 0,
        suffix_len: 0,
        seq: 0,
    };
    for r in 0..t.count {
        p = check_row(block, t, r, p)?;
    }
    Ok(t.count)
}

// Checks a whole block of any bytes: 14, all of 15, then row by row, 17 last of its row. It answers how many rows there are.
pub fn check(block: &[u8]) -> Result<usize, Refusal>
    ensures { Checks block.now result }
{
    let t = trailer::trailer_of(block)?;
    trailer::all_offsets(block, t)?;
    check_rows(block, t)
}
