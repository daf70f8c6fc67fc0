// The block iterator of format V2: a cursor that is opened on a block, stepped through it in either order, and sought with. The cursor goes in and comes back by
// value; what it gives of a row are places in the block, and the full key in a lent buffer.
// Follows slatedb 0.16.0, src/block_iterator_v2.rs (Apache License 2.0), and is changed: no region is cached, a step back reads its region again, every call
// tests block and cursor for itself, and what they can break is a refusal that gives the cursor back as it came.
#![tactic(auto)]

ghost use Rattle.std.specs.Prelude.{◌≡◌, length};
ghost use Rattle.layout.specs.Cursor.{next};
ghost use Rattle.layout.specs.Limits.{max_key};
ghost use Rattle.layout.specs.Seek.{seek};
ghost use Rattle.basics.specs.Says.{says_order};
ghost use Rattle.step_in_place_v2.specs.Promise.{Moves};
ghost use Rattle.step_in_place_v2.specs.Says.{place_after};
ghost use Rattle.place_v2.specs.Says.{view_in};
ghost use Rattle.seek_in_place_v2.specs.Promise.{Finds};
ghost use Rattle.seek_in_place_v2.specs.Says.{place_found};
ghost use Rattle.block_iterator_v2.specs.Parts.{answer_of, answer_found};
ghost use Rattle.block_iterator_v2.specs.Promise.{Opens, StepsNext, SeeksTarget, TellsEmpty};

use basics::{IterationOrder, Refusal};
use place_v2::Place;
use row_decode_v2::Row;
use seek_in_place_v2::Found as FoundPlace;
use step_in_place_v2::Moved;

// A cursor: its place, and beside it the bytes of the key before, of which the first `place.key_len` tell. A fresh one has `[0; basics::MAX_KEY]` and length 0.
#[derive(Clone, Copy)]
pub struct BlockIteratorV2 {
    pub place: Place,
    pub key: [u8; basics::MAX_KEY],
}

#[derive(Clone, Copy)]
pub struct Opened {
    pub iterator: BlockIteratorV2,
    pub answer: Result<(), Refusal>,
}

// The row that a step gives, its region and its number there.
#[derive(Clone, Copy)]
pub struct Found {
    pub region: usize,
    pub number: usize,
    pub row: Row,
}

// What a step answers, with the cursor moved past the row. None: no row is left.
#[derive(Clone, Copy)]
pub struct Next {
    pub iterator: BlockIteratorV2,
    pub answer: Result<Option<Found>, Refusal>,
}

#[derive(Clone, Copy)]
pub enum SeekAnswer {
    // How many restart keys the search read; the cursor stands where the target belongs.
    Landed(usize),
    // None is left; the search read as many.
    Done(usize),
}

#[derive(Clone, Copy)]
pub struct Sought {
    pub iterator: BlockIteratorV2,
    pub answer: Result<SeekAnswer, Refusal>,
}

// ---- a step over the cursor's own key bytes

// Lends the array as the bytes that a step works on.
fn next_in_array(
    key: &mut [u8; basics::MAX_KEY],
    p: Place,
    block: &[u8],
    out: &mut [u8],
) -> Result<Moved, Refusal>
    requires { length key.old ≡ max_key }
    ensures { Moves (next (view_in p key.old) block.now (length out.old)) p key.old out.old result key.new out.new }
{
    step_in_place_v2::next_in_place(key, p, block, out)
}

// The place that a step gives back: a refused one gives it as it came.
fn place_after(moved: Result<Moved, Refusal>, came: Place) -> Place
    ensures { result ≡ place_after moved came }
{
    match moved {
        Ok(
            Moved::Found {
                place,
                region: _,
                number: _,
                row: _,
            },
        ) => place,
        Ok(Moved::Done(place)) => place,
        Err(_) => came,
    }
}

fn answer_of(moved: Result<Moved, Refusal>) -> Result<Option<Found>, Refusal>
    ensures { result ≡ answer_of moved }
{
    match moved {
        Ok(
            Moved::Found {
                place: _,
                region,
                number,
                row,
            },
        ) => Ok(Some(Found {
            region,
            number,
            row,
        })),
        Ok(Moved::Done(_)) => Ok(None),
        Err(refusal) => Err(refusal),
    }
}

// ---- a seek over them

// Lends the array as the bytes that a seek works on.
fn seek_in_array(
    key: &mut [u8; basics::MAX_KEY],
    p: Place,
    block: &[u8],
    target: &[u8],
) -> Result<FoundPlace, Refusal>
    requires { length key.old ≡ max_key }
    ensures { Finds (seek (says_order p.order) block.now target.now) p key.old result key.new }
{
    seek_in_place_v2::seek_in_place(key, p, block, target)
}

// The place that a seek gives back: a refused one gives it as it came.
fn place_sought(found: Result<FoundPlace, Refusal>, stood: Place) -> Place
    ensures { result ≡ place_found found stood }
{
    match found {
        Ok(FoundPlace::Landed { place, reads: _ }) => place,
        Ok(FoundPlace::Done { place, reads: _ }) => place,
        Err(_) => stood,
    }
}

fn answer_sought(found: Result<FoundPlace, Refusal>) -> Result<SeekAnswer, Refusal>
    ensures { result ≡ answer_found found }
{
    match found {
        Ok(FoundPlace::Landed { place: _, reads }) => Ok(SeekAnswer::Landed(reads)),
        Ok(FoundPlace::Done { place: _, reads }) => Ok(SeekAnswer::Done(reads)),
        Err(refusal) => Err(refusal),
    }
}

impl BlockIteratorV2 {
    // Opens a block with all its offsets tested, backwards its last region read. Beside a refusal stands a cursor at 0 in region 0.
    pub fn new(block: &[u8], order: IterationOrder) -> Opened
        ensures { Opens block.now order result }
    {
        let opened = place_v2::open_place(block, order);
        let place = opened.place;
        let answer = opened.answer;
        let iterator = BlockIteratorV2 {
            place,
            key: [0; basics::MAX_KEY],
        };
        Opened { iterator, answer }
    }

    // Whether the cursor is known to have no row left: ascending by its position or its mark; descending by its mark alone.
    pub fn is_empty(self, block: &[u8]) -> Result<bool, Refusal>
        ensures { TellsEmpty self block.now result }
    {
        place_v2::is_empty_place(self.place, block)
    }

    // One step, made on the cursor's place and its key where it lies; then the place is put back.
    pub fn next(mut self, block: &[u8], out: &mut [u8]) -> Next
        ensures { StepsNext self block.now out.old result out.new }
    {
        let came = self.place;
        let moved = next_in_array(&mut self.key, came, block, out);
        let place = place_after(moved, came);
        self.place = place;
        Next {
            iterator: self,
            answer: answer_of(moved),
        }
    }

    // A seek, made on the cursor's key where it lies; then the place is put back. It starts afresh: only the order is taken from the cursor.
    pub fn seek(mut self, block: &[u8], target: &[u8]) -> Sought
        ensures { SeeksTarget self block.now target.now result }
    {
        let came = self.place;
        let found = seek_in_array(&mut self.key, came, block, target);
        let left = place_sought(found, came);
        self.place = left;
        Sought {
            iterator: self,
            answer: answer_sought(found),
        }
    }
}
