// The builder of a V2 block, by value: rows with prefix compression, and restarts. It is numbers and the last key, and its work is done over those by
// `build_in_place_v2`; the rows' bytes and the restarts' offsets are in buffers that are lent to each call.
// Follows slatedb 0.16.0, src/format/block_v2.rs (Apache License 2.0), and is changed: rows go into the free rest of the lent data buffer, the builder comes in and
// goes out by value, and what the settings, the row, the room or the state itself can break is a refusal. A refused call changes nothing.
#![tactic(auto)]

ghost use Rattle.layout.specs.Limits.{default_interval};
ghost use Rattle.build_in_place_v2.specs.Promise.{AddsInPlace};
ghost use Rattle.block_v2.specs.Promise.{Makes, Fits, Adds, Empties, Builds};

use basics::Refusal;
use row_flags::RowFields;
use state_v2::State;

// A builder's numbers, and beside them the bytes of the most recent key, of which the first `state.last_key_len` tell.
#[derive(Clone, Copy)]
pub struct BlockBuilderV2 {
    pub state: State,
    pub last_key: [u8; basics::MAX_KEY],
}

// A refused constructor gives a builder of size 0 and interval 1, with nothing used, beside its refusal.
#[derive(Clone, Copy)]
pub struct New {
    pub builder: BlockBuilderV2,
    pub answer: Result<(), Refusal>,
}

#[derive(Clone, Copy)]
pub struct Added {
    pub builder: BlockBuilderV2,
    pub answer: Result<(), Refusal>,
}

#[derive(Clone, Copy)]
pub struct Built {
    pub builder: BlockBuilderV2,
    pub answer: Result<usize, Refusal>,
}

// Adds a row where the last key lies. A builder's own array can be lent only as one.
fn add_in_array(
    last_key: &mut [u8; basics::MAX_KEY],
    s: State,
    data: &mut [u8],
    restarts: &mut [u16],
    key: &[u8],
    value: &[u8],
    row: RowFields,
) -> Result<State, Refusal>
    ensures { AddsInPlace s last_key.old «data».old restarts.old key.now value.now row result last_key.new «data».new restarts.new }
{
    build_in_place_v2::add_in_place(last_key, s, data, restarts, key, value, row)
}

impl BlockBuilderV2 {
    // Creates a new builder with the default restart interval: 8.
    pub fn new(block_size: usize) -> New
        ensures { Makes block_size default_interval result }
    {
        BlockBuilderV2::new_with_restart_interval(block_size, basics::DEFAULT_RESTART_INTERVAL)
    }

    // Creates a new builder with a custom restart interval: 8.
    pub fn new_with_restart_interval(block_size: usize, restart_interval: usize) -> New
        ensures { Makes block_size restart_interval result }
    {
        let new = state_v2::new_state(block_size, restart_interval);
        let state = new.state;
        let answer = new.answer;
        let builder = BlockBuilderV2 {
            state,
            last_key: [0; basics::MAX_KEY],
        };
        New { builder, answer }
    }

    // Whether the row would fit, over buffers of these lengths: 18, 1, 2, 3, and 4 for "no".
    pub fn would_fit(
        self,
        data_len: usize,
        places_len: usize,
        key: &[u8],
        value: &[u8],
        row: RowFields,
    ) -> Result<(), Refusal>
        ensures { Fits self data_len places_len key.now value.now row result }
    {
        let s = self.state;
        build_in_place_v2::would_fit_in_place(
            &self.last_key,
            s,
            data_len,
            places_len,
            key,
            value,
            row,
        )
    }

    // Adds a row: 18, 1, 2, 3, 4, 5, 6.
    pub fn add(
        mut self,
        data: &mut [u8],
        restarts: &mut [u16],
        key: &[u8],
        value: &[u8],
        row: RowFields,
    ) -> Added
        ensures { Adds self «data».old restarts.old key.now value.now row result «data».new restarts.new }
    {
        let s = self.state;
        let grown = add_in_array(&mut self.last_key, s, data, restarts, key, value, row);
        match grown {
            Ok(state) => {
                self.state = state;
                Added {
                    builder: self,
                    answer: Ok(()),
                }
            }
            // Nothing is written, and the last key is as it was.
            Err(refusal) => Added {
                builder: self,
                answer: Err(refusal),
            },
        }
    }

    // Whether there is no row. Any state answers.
    pub fn is_empty(self) -> bool
        ensures { Empties self result }
    {
        state_v2::is_empty_state(self.state)
    }

    // Builds the final block at the start of the data buffer, and answers its length: 18, 7, 6. The builder is given back as it came.
    pub fn build(self, data: &mut [u8], restarts: &[u16]) -> Built
        ensures { Builds self «data».old restarts.now result «data».new }
    {
        let s = self.state;
        let answer = finish_in_place_v2::build_in_place(s, data, restarts);
        Built {
            builder: self,
            answer,
        }
    }
}
