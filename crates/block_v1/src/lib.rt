// The builder of a V1 block, by value: rows that share bytes with the first key, and an offset for each. It is numbers and the first key, and its work is done over those by
// `build_in_place_v1`; the rows' bytes and their offsets are in buffers that are lent to each call.
// Follows slatedb 0.16.0, src/format/block.rs (Apache License 2.0), and is changed: rows go into the free rest of the lent data buffer, the builder comes in and
// goes out by value, and what the settings, the row, the room or the state itself can break is a refusal. A refused call changes nothing.
#![tactic(auto)]

ghost use Rattle.build_in_place_v1.specs.Promise.{AddsInPlace};
ghost use Rattle.block_v1.specs.Promise.{Makes, Fits, Adds, Empties, Builds};

use basics::Refusal;
use build_in_place_v1::Grown;
use row_flags::RowFields;
use state_v1::State;

// A builder's numbers, and beside them the bytes of the first key, of which the first `state.first_key_len` tell.
#[derive(Clone, Copy)]
pub struct BlockBuilderV1 {
    pub state: State,
    pub first_key: [u8; basics::MAX_KEY],
}

// A refused constructor gives a builder of size 0, with nothing used, beside its refusal.
#[derive(Clone, Copy)]
pub struct New {
    pub builder: BlockBuilderV1,
    pub answer: Result<(), Refusal>,
}

#[derive(Clone, Copy)]
pub struct Added {
    pub builder: BlockBuilderV1,
    pub answer: Result<(), Refusal>,
}

#[derive(Clone, Copy)]
pub struct Built {
    pub builder: BlockBuilderV1,
    pub answer: Result<usize, Refusal>,
}

// Adds a row where the first key lies. A builder's own array can be lent only as one.
fn add_in_array(
    first_key: &mut [u8; basics::MAX_KEY],
    s: State,
    data: &mut [u8],
    offsets: &mut [u16],
    key: &[u8],
    value: &[u8],
    row: RowFields,
) -> Grown
    ensures { AddsInPlace s first_key.old «data».old offsets.old key.now value.now row result first_key.new «data».new offsets.new }
{
    build_in_place_v1::add_in_place(first_key, s, data, offsets, key, value, row)
}

impl BlockBuilderV1 {
    // Creates a new builder: 8.
    pub fn new(block_size: usize) -> New
        ensures { Makes block_size result }
    {
        let made = state_v1::new_state(block_size);
        let state = made.state;
        let answer = made.answer;
        let builder = BlockBuilderV1 {
            state,
            first_key: [0; basics::MAX_KEY],
        };
        New { builder, answer }
    }

    // Whether the row would fit, over buffers of these lengths: 18, 1, 2, 3, and 4 for "no".
    pub fn would_fit(
        self,
        data_len: usize,
        places_len: usize,
        key: &[u8],
        value: &[u8],
        row: RowFields,
    ) -> Result<(), Refusal>
        ensures { Fits self data_len places_len key.now value.now row result }
    {
        let s = self.state;
        build_in_place_v1::would_fit_in_place(
            &self.first_key,
            s,
            data_len,
            places_len,
            key,
            value,
            row,
        )
    }

    // Adds a row: 18, 1, 2, 3, 4, 5, 6. A refused one leaves the builder as it was.
    pub fn add(
        mut self,
        data: &mut [u8],
        offsets: &mut [u16],
        key: &[u8],
        value: &[u8],
        row: RowFields,
    ) -> Added
        ensures { Adds self «data».old offsets.old key.now value.now row result «data».new offsets.new }
    {
        let s = self.state;
        let grown = add_in_array(&mut self.first_key, s, data, offsets, key, value, row);
        let state = grown.state;
        self.state = state;
        Added {
            builder: self,
            answer: grown.answer,
        }
    }

    // Whether there is no row. Any state answers.
    pub fn is_empty(self) -> bool
        ensures { Empties self result }
    {
        state_v1::is_empty_state(self.state)
    }

    // Builds the final block at the start of the data buffer, and answers its length: 18, 7, 6. The builder is given back as it came.
    pub fn build(self, data: &mut [u8], offsets: &[u16]) -> Built
        ensures { Builds self «data».old offsets.now result «data».new }
    {
        let s = self.state;
        let answer = finish_in_place_v1::build_in_place(s, data, offsets);
        Built {
            builder: self,
            answer,
        }
    }
}
