// The reads of a whole restart region, each row to its end: for the last row at or below a target, and to count its rows. They give numbers alone, and carry no
// key: the read for a target carries how many bytes the key before begins with in common with it.
// Follows slatedb 0.16.0, src/block_iterator_v2.rs (Apache License 2.0), and is changed: no rows are cached, and what the bytes or the numbers handed in can
// break is a refusal.
#![tactic(auto)]

ghost use Rattle.std.specs.Prelude.{◌≡◌, cond};
ghost use Rattle.whole_regions_v2.specs.Promise.{EndsLast, CountsRows};

use basics::Refusal;
use trailer::Region;

// Where the last row at or below a target ends, and how many rows of the region end there.
#[derive(Clone, Copy)]
pub struct Last {
    pub at: usize,
    pub number: usize,
}

// ---- down to a target

// Where the last row at or below the target ends so far, and how many rows end there.
fn later(above: bool, best: usize, next: usize) -> usize
    ensures { result ≡ cond above best next }
{
    if above { best } else { next }
}

// Reads a whole region: where its last row at or below the target ends, or the region's start if there is none, and how many rows end there. (`load_restart_region` and the search for the
// first greater row in the Rust's `seek` descending.)
pub fn last_at_or_below(data: &[u8], region: Region, target: &[u8]) -> Result<Last, Refusal>
    ensures { EndsLast «data».now region target.now result }
{
    if data.len() < region.end {
        return Err(Refusal::BadState);
    }
    let mut at = region.start;
    let mut len: usize = 0;
    let mut matched: usize = 0;
    let mut above = false;
    let mut number: usize = 0;
    let mut best = region.start;
    let mut best_number: usize = 0;
    while at < region.end {
        let row = row_span_v2::span_in(data, at, region.start, region.end, len)?;
        let from = row.suffix_at;
        let to = from + row.suffix_len;
        let now = match_keys::match_down(target, matched, above, row.shared, &data[from..to]);
        matched = now.len;
        above = now.below;
        len = row.shared + row.suffix_len;
        at = row.next;
        number += 1;
        best = later(above, best, at);
        best_number = later(above, best_number, number);
    }
    Ok(Last {
        at: best,
        number: best_number,
    })
}

// ---- how many rows

// Reads a whole region: how many rows it has. (`load_restart_region` in the Rust, of which the descending iterator takes the last place.)
pub fn count_rows(data: &[u8], region: Region) -> Result<usize, Refusal>
    ensures { CountsRows «data».now region result }
{
    if region.end <= region.start {
        return Err(Refusal::BadState);
    }
    let mut at = region.start;
    let mut len: usize = 0;
    let mut rows: usize = 0;
    loop {
        let row = row_span_v2::span_in(data, at, region.start, region.end, len)?;
        rows += 1;
        if region.end <= row.next {
            return Ok(rows);
        }
        len = row.shared + row.suffix_len;
        at = row.next;
    }
}
