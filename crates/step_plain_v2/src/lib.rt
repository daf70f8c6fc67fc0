// One step of an ascending cursor past a plain row, by numbers alone: no row is made, and the key goes from
// the block to where it is carried and to the lent buffer at once. What is not plain is not stepped past
// here, and nothing is written then. Follows slatedb 0.16.0, src/block_iterator_v2.rs (Apache License 2.0),
// for the rows that most rows are.
#![tactic(auto)]

ghost use Rattle.std.specs.Prelude.{cond, ◌≡◌, ◌≤◌, ◌+◌, length, take, drop};
ghost use Rattle.layout.specs.Number.{wrong_after};
ghost use Rattle.layout.specs.Place.{splice};
ghost use Rattle.step_plain_v2.specs.Ahead.{ahead_at, Moved};
ghost use Rattle.step_plain_v2.specs.Promise.{StepsPlain};

// A step that was made: where the cursor stands then, and the row's numbers.
#[derive(Clone, Copy)]
pub struct Stepped {
    pub region: usize,
    pub number: usize,
    pub key_len: usize,
    pub next: usize,
    pub shared: usize,
    pub unshared: usize,
    pub value_len: usize,
    pub seq: u64,
}

// The plain row that a cursor stands before, and the last position in its region.
#[derive(Clone, Copy)]
struct Ahead {
    next: usize,
    reach: usize,
    shared: usize,
    unshared: usize,
    value_len: usize,
}

// One of two numbers, with no branch.
fn pick(first: bool, a: usize, b: usize) -> usize
    ensures { result ≡ cond first a b }
{
    if first { a } else { b }
}

// `wrong_after`, by a shift where that is enough: rows are seldom below sixteen bytes.
fn wrong_here(passed: usize, number: usize) -> bool
    ensures { result ≡ wrong_after passed number }
{
    if number == 0 {
        return basics::wrong_after(passed, number);
    }
    if number <= passed / 16 {
        return false;
    }
    basics::wrong_after(passed, number)
}

// All that the step tests, with nothing written.
fn look_plain(
    block: &[u8],
    region: usize,
    at: usize,
    number: usize,
    key_len: usize,
    held: usize,
    room: usize,
) -> Option<Ahead>
    ensures { result ≡ ahead_at block.now region at number key_len held room }
{
    if (basics::MAX_KEY < key_len) | (held != basics::MAX_KEY) {
        return None;
    }
    let Ok(g) = trailer::region_by(block, region) else {
        return None;
    };
    if at < g.start {
        return None;
    }
    if wrong_here(at - g.start, number) {
        return None;
    }
    let most = pick(at == g.start, 0, key_len);
    let end = g.end;
    let row = row_plain_v2::plain_at(&block[..end], at, end, most)?;
    if room < row.shared + row.unshared {
        return None;
    }
    Some(Ahead {
        next: row.next,
        reach: g.reach,
        shared: row.shared,
        unshared: row.unshared,
        value_len: row.value_len,
    })
}

// ---- the key: the places of each copy are one after another, so that LLVM makes one load and one store of them

fn copy_1(buf: &mut [u8], at: usize, src: &[u8], from: usize)
    requires { (at + 1 ≤ length buf.old) × (from + 1 ≤ length src.now) }
    ensures { buf.new ≡ splice buf.old at (take 1 (drop from src.now)) }
{
    buf[at] = src[from];
}

fn copy_4(buf: &mut [u8], at: usize, src: &[u8], from: usize)
    requires { (at + 4 ≤ length buf.old) × (from + 4 ≤ length src.now) }
    ensures { buf.new ≡ splice buf.old at (take 4 (drop from src.now)) }
{
    let end = at + 4;
    let last = from + 4;
    copies::copy_4(&mut buf[at..end], &src[from..last]);
}

fn copy_8(buf: &mut [u8], at: usize, src: &[u8], from: usize)
    requires { (at + 8 ≤ length buf.old) × (from + 8 ≤ length src.now) }
    ensures { buf.new ≡ splice buf.old at (take 8 (drop from src.now)) }
{
    let end = at + 8;
    let last = from + 8;
    copies::copy_8(&mut buf[at..end], &src[from..last]);
}

// The first and the last of `n` bytes, which are all of them, some twice.
fn copy_ones(buf: &mut [u8], at: usize, src: &[u8], from: usize, n: usize)
    requires { (1 ≤ n) × (n ≤ 3) × (at + n ≤ length buf.old) × (from + n ≤ length src.now) }
    ensures { buf.new ≡ splice buf.old at (take n (drop from src.now)) }
{
    let half = n / 2;
    let last = n - 1;
    copy_1(buf, at, src, from);
    copy_1(buf, at + half, src, from + half);
    copy_1(buf, at + last, src, from + last);
}

fn copy_fours(buf: &mut [u8], at: usize, src: &[u8], from: usize, n: usize)
    requires { (4 ≤ n) × (n ≤ 8) × (at + n ≤ length buf.old) × (from + n ≤ length src.now) }
    ensures { buf.new ≡ splice buf.old at (take n (drop from src.now)) }
{
    let last = n - 4;
    copy_4(buf, at, src, from);
    copy_4(buf, at + last, src, from + last);
}

// Eight bytes into two buffers, at one place: all are read before the first store, and once for both.
fn both_8(key: &mut [u8], out: &mut [u8], at: usize, src: &[u8], from: usize)
    requires { (at + 8 ≤ length key.old) × (at + 8 ≤ length out.old) × (from + 8 ≤ length src.now) }
    ensures { (key.new ≡ splice key.old at (take 8 (drop from src.now))) × (out.new ≡ splice out.old at (take 8 (drop from src.now))) }
{
    let a = src[from];
    let b = src[from + 1];
    let c = src[from + 2];
    let d = src[from + 3];
    let e = src[from + 4];
    let f = src[from + 5];
    let g = src[from + 6];
    let h = src[from + 7];
    out[at] = a;
    out[at + 1] = b;
    out[at + 2] = c;
    out[at + 3] = d;
    out[at + 4] = e;
    out[at + 5] = f;
    out[at + 6] = g;
    out[at + 7] = h;
    key[at] = a;
    key[at + 1] = b;
    key[at + 2] = c;
    key[at + 3] = d;
    key[at + 4] = e;
    key[at + 5] = f;
    key[at + 6] = g;
    key[at + 7] = h;
}

fn both_eights(key: &mut [u8], out: &mut [u8], at: usize, src: &[u8], from: usize, n: usize)
    requires { (8 ≤ n) × (n ≤ 16) × (at + n ≤ length key.old) × (at + n ≤ length out.old) × (from + n ≤ length src.now) }
    ensures { (key.new ≡ splice key.old at (take n (drop from src.now))) × (out.new ≡ splice out.old at (take n (drop from src.now))) }
{
    let last = n - 8;
    both_8(key, out, at, src, from);
    both_8(key, out, at + last, src, from + last);
}

// Up to 16 bytes into two buffers, at one place: the branches are shared.
fn put_both(key: &mut [u8], out: &mut [u8], at: usize, src: &[u8], from: usize, n: usize)
    requires { (n ≤ 16) × (at + n ≤ length key.old) × (at + n ≤ length out.old) × (from + n ≤ length src.now) }
    ensures { (key.new ≡ splice key.old at (take n (drop from src.now))) × (out.new ≡ splice out.old at (take n (drop from src.now))) }
{
    if 8 <= n {
        both_eights(key, out, at, src, from, n);
        return;
    }
    if 4 <= n {
        copy_fours(out, at, src, from, n);
        copy_fours(key, at, src, from, n);
        return;
    }
    if n == 0 {
        return;
    }
    copy_ones(out, at, src, from, n);
    copy_ones(key, at, src, from, n);
}

// Puts the `n` bytes of the suffix over the carried key, and gives the key that it carries then. Bytes that
// were just stored are not loaded again: of a key of 16 bytes or more `out` has the first 16 that were
// carried, and the suffix over them.
fn carry(key: &mut [u8], out: &mut [u8], block: &[u8], shared: usize, from: usize, n: usize)
    requires { (shared + n ≤ length key.old) × (shared + n ≤ length out.old) × (from + n ≤ length block.now) }
    ensures { Moved key.old out.old shared (take n (drop from block.now)) key.new out.new }
{
    let whole = shared + n;
    if (whole < 16) | (16 < shared) | (16 < n) {
        let end = from + n;
        let _ = buf_mut::copy_in(key, shared, &block[from..end]);
        let _ = buf_mut::copy_in(out, 0, &key[..whole]);
        return;
    }
    copy_8(out, 0, key, 0);
    copy_8(out, 8, key, 8);
    put_both(key, out, shared, block, from, n);
}

// ---- the step

// One step past a plain row, of an ascending cursor that is not marked. Its key's bytes are lent, MAX_KEY
// of them.
pub fn plain_step(
    key: &mut [u8],
    region: usize,
    at: usize,
    number: usize,
    key_len: usize,
    block: &[u8],
    out: &mut [u8],
) -> Option<Stepped>
    ensures { StepsPlain region at number key_len key.old block.now out.old result key.new out.new }
{
    let row = look_plain(block, region, at, number, key_len, key.len(), out.len())?;
    carry(key, out, block, row.shared, at + 3, row.unshared);
    let over = row.reach < row.next;
    let seq_at = row.next - 9;
    let seq_end = seq_at + 8;
    Some(Stepped {
        region: pick(over, region + 1, region),
        number: pick(over, 0, number + 1),
        key_len: pick(over, 0, row.shared + row.unshared),
        next: row.next,
        shared: row.shared,
        unshared: row.unshared,
        value_len: row.value_len,
        seq: buf::eight(&block[seq_at..seq_end], 0),
    })
}
