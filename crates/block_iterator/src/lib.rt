// The block iterator of the earlier format: a cursor that is opened on a block, stepped through it in either order, and sought with. It is two numbers, that go in
// and come back by value; what it gives of a row are places in the block, and the full key in a lent buffer.
// Follows slatedb 0.16.0, src/block_iterator.rs (Apache License 2.0), and is changed: the first key stays in the block, every call tests block and cursor for
// itself, and what they can break is a refusal that gives the cursor back as it came.
#![tactic(auto)]

ghost use Rattle.std.specs.Prelude.{◌≡◌, ◌≤◌, ◌<◌, ◌+◌, length};
ghost use Rattle.layout.specs.Res.{ok};
ghost use Rattle.layout.specs.Place.{splice};
ghost use Rattle.layout.specs.Trailer.{trailer_of};
ghost use Rattle.layout_v1.specs.Cursor.{number_of};
ghost use Rattle.layout_v1.specs.Seek.{passed_by, seek};
ghost use Rattle.basics.specs.Says.{says_order};
ghost use Rattle.row_decode_v2.specs.Says.{row_from};
ghost use Rattle.trailer.specs.Says.{trailer_from};
ghost use Rattle.block_iterator.specs.Parts.{key_at, Fits, Loads, Gives, Tests, says_landed, refused_with};
ghost use Rattle.block_iterator.specs.Promise.{Opens, StepsNext, SeeksTarget, TellsEmpty};

use basics::{IterationOrder, Refusal};
use row_decode_v2::Row;
use trailer::Trailer;

// A cursor: its order, and how many rows it has passed; all passed is "done".
#[derive(Clone, Copy)]
pub struct BlockIterator {
    pub order: IterationOrder,
    pub passed: usize,
}

#[derive(Clone, Copy)]
pub struct Opened {
    pub iterator: BlockIterator,
    pub answer: Result<(), Refusal>,
}

// A row that a step gives, and its number in the block.
#[derive(Clone, Copy)]
pub struct Found {
    pub number: usize,
    pub row: Row,
}

// What a step answers, with the cursor moved past the row; no row where all are passed.
#[derive(Clone, Copy)]
pub struct Next {
    pub iterator: BlockIterator,
    pub answer: Result<Option<Found>, Refusal>,
}

// What a seek answers: how many keys the search read. The cursor stands where the target belongs, with all rows passed where none is left.
#[derive(Clone, Copy)]
pub struct Sought {
    pub iterator: BlockIterator,
    pub answer: Result<usize, Refusal>,
}

// A row that was read, and where the first key starts, of which it shares a part.
#[derive(Clone, Copy)]
struct Loaded {
    first_at: usize,
    row: Row,
}

// Where a seek's cursor stands, and how many keys the search read.
#[derive(Clone, Copy)]
struct Landed {
    passed: usize,
    reads: usize,
}

// ---- one step

// The number of the row that comes next.
fn number_of(order: IterationOrder, count: usize, passed: usize) -> usize
    requires { passed < count }
    ensures { result ≡ number_of (says_order order) count passed }
{
    match order {
        IterationOrder::Ascending => passed,
        IterationOrder::Descending => count - 1 - passed,
    }
}

// All that a step tests once it is known that a row is left, with nothing written: row 0's key, 15 for the row's offset and the next, the row, 19.
// (`load_at_current_off` in the Rust.)
fn load_at(block: &[u8], t: Trailer, index: usize, room: usize) -> Result<Loaded, Refusal>
    requires { (trailer_of block.now ≡ ok (trailer_from t)) × (index < t.count) }
    ensures { Loads block.now (trailer_from t) index room result }
{
    let first = block_keys_v1::first_key(block, t)?;
    let region = trailer::region_of(block, t, index)?;
    let most = block_keys_v1::may_share(index, first.suffix_len);
    let rows = &block[..t.size];
    let row = row_decode_v0::decode_at(rows, region.start, region.end, most)?;
    if room < row.shared + row.suffix_len {
        return Err(Refusal::KeyBufferTooShort);
    }
    Ok(Loaded {
        first_at: first.suffix_at,
        row,
    })
}

// Gives the row's key: what it shares of the first key, then its suffix. (`restore_full_key` in the Rust.)
fn give_key(out: &mut [u8], data: &[u8], first_at: usize, row: Row)
    requires { Fits «data».now (first_at) (length out.old) (row_from row) }
    ensures { out.new ≡ splice out.old 0 (key_at «data».now first_at (row_from row)) }
{
    let first_end = first_at + row.shared;
    let _ = buf_mut::copy_in(out, 0, &data[first_at..first_end]);
    let from = row.suffix_at;
    let end = from + row.suffix_len;
    let _ = buf_mut::copy_in(out, row.shared, &data[from..end]);
}

// A refused step gives the cursor back as it came.
fn refused(c: BlockIterator, refusal: Refusal) -> Next
    ensures { result ≡ refused_with c refusal }
{
    Next {
        iterator: c,
        answer: Err(refusal),
    }
}

// Reads the row that comes next and, once nothing can be refused, gives its key and moves past it.
fn give_row(c: BlockIterator, block: &[u8], t: Trailer, out: &mut [u8]) -> Next
    requires { (trailer_of block.now ≡ ok (trailer_from t)) × (c.passed < t.count) }
    ensures { Gives c block.now (trailer_from t) out.old result out.new }
{
    let order = c.order;
    let passed = c.passed;
    let number = number_of(order, t.count, passed);
    match load_at(block, t, number, out.len()) {
        Ok(loaded) => {
            let row = loaded.row;
            give_key(out, &block[..t.size], loaded.first_at, row);
            let moved = passed + 1;
            Next {
                iterator: BlockIterator {
                    order,
                    passed: moved,
                },
                answer: Ok(Some(Found { number, row })),
            }
        }
        Err(refusal) => refused(c, refusal),
    }
}

// ---- a seek

// How many rows are passed once the search has closed at `place`: ascending those before it, descending those from it on.
fn passed_by(order: IterationOrder, count: usize, place: usize) -> usize
    requires { place ≤ count }
    ensures { result ≡ passed_by (says_order order) count place }
{
    match order {
        IterationOrder::Ascending => place,
        IterationOrder::Descending => count - place,
    }
}

// What a seek finds: how many rows its cursor has passed, and how many keys the search read. 14, row 0's key, then what the search over all rows' keys answers.
fn search(block: &[u8], order: IterationOrder, target: &[u8]) -> Result<Landed, Refusal>
    ensures { says_landed (says_order order) result ≡ seek (says_order order) block.now target.now }
{
    let t = trailer::trailer_of(block)?;
    let found = block_keys_v1::find_row(block, t, order, target)?;
    Ok(Landed {
        passed: passed_by(order, t.count, found.place),
        reads: found.reads,
    })
}

// What opening a block tests, in either order: 14, 15, what row 0's key refuses.
fn open(block: &[u8]) -> Result<(), Refusal>
    ensures { Tests block.now result }
{
    let t = trailer::trailer_of(block)?;
    trailer::all_offsets(block, t)?;
    block_keys_v1::first_key(block, t)?;
    Ok(())
}

impl BlockIterator {
    // Opens a block with all its offsets tested and row 0's key read: 14, 15, what that key refuses. A cursor that has passed no row stands beside a refusal too.
    pub fn new(block: &[u8], order: IterationOrder) -> Opened
        ensures { Opens block.now order result }
    {
        let iterator = BlockIterator { order, passed: 0 };
        Opened {
            iterator,
            answer: open(block),
        }
    }

    // Whether all rows are passed. Only the trailer is tested: 14.
    pub fn is_empty(self, block: &[u8]) -> Result<bool, Refusal>
        ensures { TellsEmpty self block.now result }
    {
        let t = trailer::trailer_of(block)?;
        Ok(t.count <= self.passed)
    }

    // One step. Tested in this order: the trailer (14), that no more rows are passed than there are (18), whether all are, then what the row's read asks for.
    // All tests come before the first write.
    pub fn next(self, block: &[u8], out: &mut [u8]) -> Next
        ensures { StepsNext self block.now out.old result out.new }
    {
        let t = match trailer::trailer_of(block) {
            Ok(t) => t,
            Err(refusal) => return refused(self, refusal),
        };
        if t.count < self.passed {
            return refused(self, Refusal::BadState);
        }
        if self.passed == t.count {
            return Next {
                iterator: self,
                answer: Ok(None),
            };
        }
        give_row(self, block, t, out)
    }

    // A seek starts afresh: only the order is taken from the cursor. 14, row 0's key, then what the search over all rows' keys answers; no row is read whole.
    pub fn seek(self, block: &[u8], target: &[u8]) -> Sought
        ensures { SeeksTarget self block.now target.now result }
    {
        match search(block, self.order, target) {
            Ok(landed) => Sought {
                iterator: BlockIterator {
                    order: self.order,
                    passed: landed.passed,
                },
                answer: Ok(landed.reads),
            },
            Err(refusal) => Sought {
                iterator: self,
                answer: Err(refusal),
            },
        }
    }
}
