// Walks over a whole block inside one call, for measuring and comparing: a C library of their own. Each counts the rows that it finds and sums over them, one with
// the cursor by value from step to step, one with its key bytes in place.
// Follows the loop over next of slatedb 0.16.0's BlockIteratorV2 (Apache License 2.0), and is changed: each answers a code, 0 for good, the number of a refusal, 254
// for words that mean nothing, which is tested first, and 255 for "done"; what else it answers goes to lent words.
#![tactic(auto)]

ghost use Rattle.std.specs.Prelude.{◌≡◌, ◌+◌, ◌%◌, ◌^◌, ◌<◌, ◌≤◌, length, take, replicate};
ghost use Rattle.layout.specs.Res.{bind};
ghost use Rattle.layout.specs.Limits.{max_key};
ghost use Rattle.basics.specs.Says.{says_held};
ghost use Rattle.row_decode_v2.specs.Says.{row_from};
ghost use Rattle.trailer.specs.Says.{region_from};
ghost use Rattle.place_v2.specs.Says.{view_in};
ghost use Rattle.region_rows_v2.specs.Bounds.{Inside};
ghost use Rattle.region_rows_v2.specs.Region.{PlainFits};
ghost use Rattle.compare_walks.specs.Walk.{held_length, amount, walk, wrapped};
ghost use Rattle.compare_walks.specs.Loop.{added, PassesPlain, RunsOn, Ends, Goes, StepsOn, Stops, TellsOver};
ghost use Rattle.compare_walks.specs.Says.{says_walked};
ghost use Rattle.compare_walks.specs.Promise.{Tells, WalksFlat};

use basics::{Refusal, ValueDeletable};
use block_iterator_v2::BlockIteratorV2;
use place_v2::Place;
use region_rows_v2::Bounds;
use row_decode_v2::Row;
use row_plain_v2::PlainRow;
use step_in_place_v2::Moved;

const SUMS_WORDS: usize = 2;

// How many rows a walk found, their sum, and whether "done" ended it.
#[derive(Clone, Copy)]
struct Walked {
    over: bool,
    rows: u64,
    sum: u64,
}

// Stores what a walk found, and gives its code.
fn tell(walked: Result<Walked, Refusal>, sums: &mut [u64]) -> u8
    requires { length sums.old ≡ 2 }
    ensures { Tells (says_walked walked) sums.old result sums.new }
{
    match walked {
        Ok(w) => {
            sums[0] = w.rows;
            sums[1] = w.sum;
            if w.over {
                block_words::DONE
            } else {
                block_words::GOOD
            }
        }
        Err(refusal) => u8::from(refusal),
    }
}

// ---- what a row adds

fn value_len(held: ValueDeletable) -> u64
    ensures { result ≡ held_length (says_held held) }
{
    match held {
        ValueDeletable::Value { start: _, len } | ValueDeletable::Merge { start: _, len } =>
            len as u64,
        ValueDeletable::Tombstone => 0,
    }
}

// The sum with a row more, by its parts: its key is the first `n` bytes of `key`, its value has `held` bytes.
fn with_parts(sum: u64, seq: u64, held: u64, key: &[u8], n: usize) -> u64
    requires { (1 ≤ n) × (n ≤ length key.now) × (length key.now ≡ max_key) }
    ensures { result ≡ (sum + added seq held (take n key.now)) % 2 ^ 64 }
{
    let last = n - 1;
    let lengths = std::num::wrapping_add_u64(n as u64, held);
    let named = std::num::wrapping_add_u64(seq, u64::from(key[last]));
    std::num::wrapping_add_u64(sum, std::num::wrapping_add_u64(named, lengths))
}

// The same of a row that was read.
fn with_row(sum: u64, row: Row, key: &[u8]) -> u64
    requires { (1 ≤ row.shared + row.suffix_len) × (row.shared + row.suffix_len ≤ length key.now) × (length key.now ≡ max_key) }
    ensures { result ≡ (sum + amount (row_from row) (take (row.shared + row.suffix_len) key.now)) % 2 ^ 64 }
{
    with_parts(
        sum,
        row.seq,
        value_len(row.held),
        key,
        row.shared + row.suffix_len,
    )
}

// ---- by value

fn by_value(block: &[u8], start: Place, limit: u64) -> Result<Walked, Refusal>
    ensures { says_walked result ≡ bind (walk limit (view_in start (replicate max_key 0)) block.now) wrapped }
{
    let mut c = BlockIteratorV2 {
        place: start,
        key: [0; basics::MAX_KEY],
    };
    let mut key = [0; basics::MAX_KEY];
    let mut sum = 0;
    for rows in 0..limit {
        let next = c.next(block, &mut key);
        let Some(found) = next.answer? else {
            return Ok(Walked {
                over: true,
                rows,
                sum,
            });
        };
        sum = with_row(sum, found.row, &key);
        c = next.iterator;
    }
    Ok(Walked {
        over: false,
        rows: limit,
        sum,
    })
}

// ---- in place

// Puts the suffix of a plain row over the key of the row before, and gives the sum with it.
fn pass_plain(key: &mut [u8], data: &[u8], at: usize, row: PlainRow, sum: u64) -> u64
    requires { (length key.old ≡ max_key) × PlainFits (length «data».now) at row }
    ensures { PassesPlain key.old «data».now at row sum result key.new }
{
    let from = at + 3;
    let end = from + row.unshared;
    let _ = buf_mut::copy_in(key, row.shared, &data[from..end]);
    let seq = buf::eight(data, row.next - 9);
    with_parts(
        sum,
        seq,
        row.value_len as u64,
        key,
        row.shared + row.unshared,
    )
}

// Where a run of rows ended, and what it found. The place stands last: in `Went` the tags of other answers lie over the first bytes, and a number there is put
// together from parts each time that a step hands it back. `rows` is counted here.
#[derive(Clone, Copy)]
struct Ran {
    rows: u64,
    sum: u64,
    place: Place,
}

// The plain rows of one region: to its end, to the first row that is not plain, or to the limit. The loop has the registers to itself: in line, what stands round it
// takes some of them.
#[inline(never)]
fn run(block: &[u8], b: Bounds, key: &mut [u8], came: Ran, limit: u64) -> Ran
    requires key_len { length key.old ≡ max_key }
    requires inside { Inside block.now b.size (region_from b.region) (view_in came.place key.old) }
    ensures { RunsOn block.now limit came key.old result key.new }
{
    let g = b.region;
    let size = b.size;
    let mut p = came.place;
    let mut rows = came.rows;
    let mut sum = came.sum;
    while rows < limit {
        let at = p.at;
        let most = if at == g.start { 0 } else { p.key_len };
        let Some(row) = row_plain_v2::plain_at(&block[..size], at, g.end, most) else {
            return Ran {
                place: p,
                rows,
                sum,
            };
        };
        sum = pass_plain(key, &block[..size], at, row, sum);
        rows += 1;
        p.at = row.next;
        if g.reach < row.next {
            p.region += 1;
            p.number = 0;
            p.key_len = 0;
            return Ran {
                place: p,
                rows,
                sum,
            };
        }
        p.number += 1;
        p.key_len = row.shared + row.unshared;
    }
    Ran {
        place: p,
        rows,
        sum,
    }
}

// The same of the region that the cursor goes on in, if there is one.
fn run_here(block: &[u8], key: &mut [u8], came: Ran, limit: u64) -> Ran
    requires { length key.old ≡ max_key }
    ensures { RunsOn block.now limit came key.old result key.new }
{
    let Some(b) = region_rows_v2::bounds_of(block, came.place) else {
        return came;
    };
    run(block, b, key, came, limit)
}

// Where a walk has come to, still under way; or what it found by its end.
#[derive(Clone, Copy)]
enum Went {
    On(Ran),
    Over(Walked),
}

// One more step, with its row added.
fn step_row(block: &[u8], carried: &mut [u8], out: &mut [u8], here: Ran) -> Result<Went, Refusal>
    requires { (length carried.old ≡ max_key) × (length out.old ≡ max_key) × (here.rows + 1 < 2 ^ 64) }
    ensures { StepsOn block.now here carried.old result carried.new }
{
    let rows = here.rows;
    let sum = here.sum;
    match step_in_place_v2::next_in_place(carried, here.place, block, out)? {
        Moved::Found {
            place,
            region: _,
            number: _,
            row,
        } => Ok(Went::On(Ran {
            place,
            rows: rows + 1,
            sum: with_row(sum, row, out),
        })),
        Moved::Done(_) => Ok(Went::Over(Walked {
            over: true,
            rows,
            sum,
        })),
    }
}

// Plain rows a region at a time, any other row by a step of its own; to the first of these, unless `out` has room for every key.
fn walk_rows(
    block: &[u8],
    carried: &mut [u8],
    out: &mut [u8],
    came: Ran,
    limit: u64,
) -> Result<Went, Refusal>
    requires { length carried.old ≡ max_key }
    ensures { Goes block.now limit came carried.old result carried.new × Stops limit (length out.old) result }
{
    let mut here = came;
    while here.rows < limit {
        let before = here.rows;
        here = run_here(block, carried, here, limit);
        if here.rows == before {
            if out.len() != basics::MAX_KEY {
                return Ok(Went::On(here));
            }
            let went = step_row(block, carried, out, here)?;
            let Went::On(next) = went else {
                return Ok(went);
            };
            here = next;
        }
    }
    Ok(Went::Over(Walked {
        over: false,
        rows: here.rows,
        sum: here.sum,
    }))
}

// Whether an ascending cursor stands at the end of the last region, where a step says "done".
fn is_over(block: &[u8], p: Place) -> bool
    ensures { TellsOver p block.now result }
{
    let Some(b) = region_rows_v2::bounds_of(block, p) else {
        return false;
    };
    let g = b.region;
    (g.reach == p.at) & (g.end == p.at)
}

// The rest of a walk that came to no plain row. The bytes for a key that a step gives are made, and cleared, only here.
fn walk_rest(block: &[u8], carried: &mut [u8], here: Ran, limit: u64) -> Result<Walked, Refusal>
    requires { (length carried.old ≡ max_key) × (here.rows < limit) }
    ensures { Ends block.now limit here carried.old result }
{
    if is_over(block, here.place) {
        return Ok(Walked {
            over: true,
            rows: here.rows,
            sum: here.sum,
        });
    }
    let mut out = [0; basics::MAX_KEY];
    let went = walk_rows(block, carried, &mut out, here, limit)?;
    // Never on: every key has room.
    let Went::Over(walked) = went else {
        return Err(Refusal::BadState);
    };
    Ok(walked)
}

// Plain rows alone, as long as there are some: their keys go from the block to the carried one, so that nothing is lent for them.
fn in_place(block: &[u8], start: Place, limit: u64) -> Result<Walked, Refusal>
    ensures { says_walked result ≡ bind (walk limit (view_in start (replicate max_key 0)) block.now) wrapped }
{
    let mut carried = [0; basics::MAX_KEY];
    let mut none = [0; 1];
    let came = Ran {
        place: start,
        rows: 0,
        sum: 0,
    };
    match walk_rows(block, &mut carried, &mut none, came, limit)? {
        Went::On(here) => walk_rest(block, &mut carried, here, limit),
        Went::Over(walked) => Ok(walked),
    }
}

// ---- the two walks

// Opens the block and steps at most `limit` times. Both walks are one but for the cursor, which moves by value or stays in place.
fn walk_flat(block: &[u8], order: u64, limit: u64, sums: &mut [u64], moves: bool) -> u8
    ensures { WalksFlat block.now order limit sums.old result sums.new }
{
    if sums.len() != SUMS_WORDS {
        return block_words::BAD_WORDS;
    }
    let Some(o) = row_words::order_in(order) else {
        return block_words::BAD_WORDS;
    };
    let opened = place_v2::open_place(block, o);
    let place = opened.place;
    match opened.answer {
        Ok(()) => {
            if moves {
                let walked = by_value(block, place, limit);
                return tell(walked, sums);
            }
            let walked = in_place(block, place, limit);
            tell(walked, sums)
        }
        Err(refusal) => u8::from(refusal),
    }
}

// 254, 14, 15, backwards what the last region's rows refuse, and what a step refuses. Good after `limit` rows, or done, sets `sums` to the rows found and their sum.
#[unsafe(no_mangle)]
pub extern "C" fn slatedb_walk_by_value(
    block: &[u8],
    order: u64,
    limit: u64,
    sums: &mut [u64],
) -> u8
    ensures { WalksFlat block.now order limit sums.old result sums.new }
{
    walk_flat(block, order, limit, sums, true)
}

// The same with the key bytes in place: no step copies a cursor.
#[unsafe(no_mangle)]
pub extern "C" fn slatedb_walk_in_place(
    block: &[u8],
    order: u64,
    limit: u64,
    sums: &mut [u64],
) -> u8
    ensures { WalksFlat block.now order limit sums.old result sums.new }
{
    walk_flat(block, order, limit, sums, false)
}
