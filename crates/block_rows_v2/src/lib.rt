// Many rows in one call: a cursor stepped over lent words, all keys one after another in one lent buffer and all rows' words in another.
// Follows the loop over next of slatedb 0.16.0's BlockIteratorV2 (Apache License 2.0), and is changed: rows are given until one is refused or does not fit, and a
// refusal is answered only where no row is given.
#![tactic(auto)]

ghost use Rattle.std.specs.Prelude.{Ok, Err, true, false, cond, ◌≡◌, ◌+◌, ◌*◌, ◌≤◌, eqb, length, take, drop};
ghost use Rattle.layout.specs.Limits.{max_key};
ghost use Rattle.layout.specs.Laws.Splice.{Wrote};
ghost use Rattle.layout.specs.Place.{splice};
ghost use Rattle.layout.specs.Plain.{plain_read};
ghost use Rattle.row_decode_v2.specs.Says.{row_from};
ghost use Rattle.row_plain_v2.specs.Promise.{plain_from};
ghost use Rattle.trailer.specs.Says.{region_from};
ghost use Rattle.place_v2.specs.Says.{view_in};
ghost use Rattle.row_words.specs.Words.{cursor_count, row_count, row_words_of};
ghost use Rattle.block_rows_v2.specs.Rows.{next_rows};
ghost use Rattle.block_rows_v2.specs.Promise.{most_rows, RowsFlat};
ghost use Rattle.region_rows_v2.specs.Bounds.{Inside};
ghost use Rattle.region_rows_v2.specs.Region.{PlainFits};
ghost use Rattle.block_rows_v2.specs.Says.{Gives, PutsGave, Roomy, Ended, RunsOn, StepsOn, Carried, gave_is, ran_to_of, marked_at};
ghost use Rattle.block_rows_v2.specs.declared.Went.TheVariants.{Stopped};

use basics::{Refusal, ValueDeletable};
use place_v2::Place;
use region_rows_v2::Bounds;
use row_decode_v2::Row;
use row_plain_v2::PlainRow;
use step_in_place_v2::Moved;

// The cursor past the rows that were given, how many these are, and whether "done" came at once. The first row's refusal stands in its place.
#[derive(Clone, Copy)]
struct Gave {
    over: bool,
    place: Place,
    count: usize,
}

// Puts the words of the call's row `n`, with the numbers that name it in the block.
fn put_nth(rows: &mut [u64], n: usize, region: usize, number: usize, row: Row)
    requires { (n + 1) * row_count ≤ length rows.old }
    ensures { Wrote rows.old (n * row_count) (row_words_of region number (row_from row)) rows.new ((n + 1) * row_count) }
{
    let at = n * row_words::ROW_WORDS;
    let end = at + row_words::ROW_WORDS;
    row_words::put_row(&mut rows[at..end], region, number, row);
}

// ---- a plain row

fn copy_16(buf: &mut [u8], at: usize, src: &[u8], from: usize)
    requires { (at + 16 ≤ length buf.old) × (from + 16 ≤ length src.now) }
    ensures { buf.new ≡ splice buf.old at (take 16 (drop from src.now)) }
{
    let half = at + 8;
    let end = half + 8;
    let mid = from + 8;
    let last = mid + 8;
    copies::copy_8(&mut buf[at..half], &src[from..mid]);
    copies::copy_8(&mut buf[half..end], &src[mid..last]);
}

// Gives the key of a plain row to the start of `out`, and has it carried. Bytes past a carried key tell nothing, so that sixteen may go where the suffix has
// fewer; and bytes that were just stored are not loaded again.
fn carry(key: &mut [u8], out: &mut [u8], data: &[u8], at: usize, row: PlainRow)
    requires { (length key.old ≡ max_key) × PlainFits (length «data».now) at row × (row.shared + row.unshared ≤ length out.old) }
    ensures { Carried key.old out.old «data».now at row key.new out.new }
{
    let shared = row.shared;
    let whole = shared + row.unshared;
    let from = at + 3;
    let end = from + row.unshared;
    if (whole < 16) | (16 < shared) | (16 < row.unshared) | (data.len() - from < 16) {
        let _ = buf_mut::copy_in(key, shared, &data[from..end]);
        let _ = buf_mut::copy_in(out, 0, &key[..whole]);
        return;
    }
    copy_16(out, 0, key, 0);
    let _ = buf_mut::copy_in(out, shared, &data[from..end]);
    copy_16(key, shared, data, from);
}

// A plain row as any other.
fn row_of(data: &[u8], at: usize, row: PlainRow) -> Row
    requires { PlainFits (length «data».now) at row }
    ensures { row_from result ≡ plain_read «data».now at (plain_from row) }
{
    let suffix_at = at + 3;
    Row {
        start: at,
        next: row.next,
        shared: row.shared,
        suffix_at,
        suffix_len: row.unshared,
        held: ValueDeletable::Value {
            start: suffix_at + row.unshared,
            len: row.value_len,
        },
        seq: buf::eight(data, row.next - 9),
        expire: None,
        create: None,
    }
}

// ---- the plain rows of a region

// Where a run of rows stands: how many bytes of keys and how many rows are given, and whether no row is left, which is told at its start alone.
#[derive(Clone, Copy)]
struct Ran {
    place: Place,
    used: usize,
    count: usize,
    ended: bool,
}

// Where one more step leads: on, past its row; or to what is answered.
#[derive(Clone, Copy)]
enum Went {
    On(Ran),
    Stopped(Gave),
}

// To the region's end, to the first row that is not plain or whose key does not fit, or until there are `most`.
fn run(
    block: &[u8],
    b: Bounds,
    key: &mut [u8],
    keys: &mut [u8],
    rows: &mut [u64],
    came: Ran,
    most: usize,
) -> Ran
    requires roomy { Roomy came most key.old keys.old rows.old }
    requires inside { Inside block.now b.size (region_from b.region) (view_in came.place key.old) }
    ensures { RunsOn block.now most came key.old keys.old rows.old result key.new keys.new rows.new }
{
    let g = b.region;
    let size = b.size;
    let mut p = came.place;
    let mut used = came.used;
    let mut n = came.count;
    while n < most {
        let at = p.at;
        let share = if at == g.start { 0 } else { p.key_len };
        let Some(row) = row_plain_v2::plain_at(&block[..size], at, g.end, share) else {
            return ran_to(p, used, n);
        };
        let whole = row.shared + row.unshared;
        if keys.len() - used < whole {
            return ran_to(p, used, n);
        }
        carry(key, &mut keys[used..], &block[..size], at, row);
        put_nth(rows, n, p.region, p.number, row_of(&block[..size], at, row));
        n += 1;
        used += whole;
        p.at = row.next;
        if g.reach < row.next {
            p.region += 1;
            p.number = 0;
            p.key_len = 0;
            return ran_to(p, used, n);
        }
        p.number += 1;
        p.key_len = whole;
    }
    ran_to(p, used, n)
}

fn ran_to(place: Place, used: usize, count: usize) -> Ran
    ensures { result ≡ ran_to_of place used count }
{
    Ran {
        place,
        used,
        count,
        ended: false,
    }
}

// The same of the region that the cursor goes on in, if there is one.
fn run_here(
    block: &[u8],
    key: &mut [u8],
    keys: &mut [u8],
    rows: &mut [u64],
    came: Ran,
    most: usize,
) -> Ran
    requires roomy { Roomy came most key.old keys.old rows.old }
    requires ended_value { came.ended ≡ false }
    ensures { RunsOn block.now most came key.old keys.old rows.old result key.new keys.new rows.new }
{
    let mut here = came;
    let place = came.place;
    let Some(b) = region_rows_v2::bounds_of(block, place) else {
        return here;
    };
    let g = b.region;
    if (g.reach == place.at) & (g.end == place.at) {
        here.ended = true;
        return here;
    }
    run(block, b, key, keys, rows, came, most)
}

// ---- many rows

// What is answered once a step finds no row, and leaves the cursor at `after`: that step, if it is the first, else the rows so far.
fn stop(n: usize, p: Place, after: Place) -> Gave
    ensures { result ≡ cond (eqb n 0) (gave_is true after 0) (gave_is false p n) }
{
    if n == 0 {
        return Gave {
            over: true,
            place: after,
            count: 0,
        };
    }
    Gave {
        over: false,
        place: p,
        count: n,
    }
}

// The same of a step that refuses.
fn refuse(n: usize, p: Place, refusal: Refusal) -> Result<Went, Refusal>
    ensures { result ≡ cond (eqb n 0) (Err refusal) (Ok (Stopped (gave_is false p n))) }
{
    if n == 0 {
        return Err(refusal);
    }
    Ok(Went::Stopped(Gave {
        over: false,
        place: p,
        count: n,
    }))
}

fn marked(p: Place) -> Place
    ensures { result ≡ marked_at p }
{
    let mut place = p;
    place.done = true;
    place
}

// One more step from where a run stands, and its row given.
fn step_row(
    block: &[u8],
    key: &mut [u8],
    keys: &mut [u8],
    rows: &mut [u64],
    here: Ran,
) -> Result<Went, Refusal>
    requires roomy { Roomy here (here.count + 1) key.old keys.old rows.old }
    requires ended { Ended block.now here key.old }
    ensures { StepsOn block.now here key.old keys.old rows.old result key.new keys.new rows.new }
{
    let p = here.place;
    let n = here.count;
    let used = here.used;
    if here.ended {
        return Ok(Went::Stopped(stop(n, p, marked(p))));
    }
    let moved = match step_in_place_v2::next_in_place(key, p, block, &mut keys[used..]) {
        Ok(moved) => moved,
        Err(refusal) => return refuse(n, p, refusal),
    };
    match moved {
        Moved::Found {
            place,
            region,
            number,
            row,
        } => {
            put_nth(rows, n, region, number, row);
            Ok(Went::On(Ran {
                place,
                used: used + (row.shared + row.suffix_len),
                count: n + 1,
                ended: false,
            }))
        }
        Moved::Done(place) => Ok(Went::Stopped(stop(n, p, place))),
    }
}

// Steps until `rows` is full, or a step finds no row: that step is not made, unless it is the first.
fn give_rows(
    block: &[u8],
    start: Place,
    key: &mut [u8],
    keys: &mut [u8],
    rows: &mut [u64],
) -> Result<Gave, Refusal>
    requires { length key.old ≡ max_key }
    ensures { Gives (next_rows (most_rows rows.old) (view_in start key.old) block.now (length keys.old)) key.old keys.old rows.old result key.new keys.new rows.new }
{
    let most = rows.len() / row_words::ROW_WORDS;
    let mut here = Ran {
        place: start,
        used: 0,
        count: 0,
        ended: false,
    };
    while here.count < most {
        let before = here.count;
        here = run_here(block, key, keys, rows, here, most);
        if here.count == before {
            let went = step_row(block, key, keys, rows, here)?;
            match went {
                Went::On(next) => {
                    here = next;
                }
                Went::Stopped(gave) => {
                    return Ok(gave);
                }
            }
        }
    }
    Ok(Gave {
        over: false,
        place: here.place,
        count: here.count,
    })
}

// Stores the cursor and the count, unless the first row was refused.
fn put_gave(cursor: &mut [u64], count: &mut u64, gave: Result<Gave, Refusal>) -> u8
    requires { length cursor.old ≡ cursor_count }
    ensures { PutsGave gave cursor.old count.old result cursor.new count.new }
{
    match gave {
        Ok(g) => {
            block_words::put_cursor(cursor, g.place);
            *count = g.count as u64;
            if g.over {
                block_words::DONE
            } else {
                block_words::GOOD
            }
        }
        Err(refusal) => u8::from(refusal),
    }
}

// As many steps as `rows` has whole rows' words for, in place: 254; then what the first step answers, unless it finds a row. Words of `rows` that are left over
// are not used.
pub fn next_rows(
    block: &[u8],
    cursor: &mut [u64],
    key: &mut [u8],
    keys: &mut [u8],
    rows: &mut [u64],
    count: &mut u64,
) -> u8
    ensures { RowsFlat block.now cursor.old key.old keys.old rows.old count.old result cursor.new key.new keys.new rows.new count.new }
{
    if key.len() != basics::MAX_KEY {
        return block_words::BAD_WORDS;
    }
    let Some(p) = block_words::cursor_in(cursor) else {
        return block_words::BAD_WORDS;
    };
    let gave = give_rows(block, p, key, keys, rows);
    put_gave(cursor, count, gave)
}
