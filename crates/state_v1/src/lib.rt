// A V1 block builder's numbers, without the bytes of its first key: a new one, and whether it has no row.
// Follows slatedb 0.16.0, src/format/block.rs (Apache License 2.0), and is changed: a builder is numbers that come back by value, its rows and their offsets lie in lent
// buffers, and a block size outside its limits is a refusal.
#![tactic(auto)]

ghost use Rattle.std.specs.Prelude.{◌≡◌};
ghost use Rattle.layout_v1.specs.Builder.{fresh};
ghost use Rattle.state_v1.specs.Says.{state_from};
ghost use Rattle.state_v1.specs.Promise.{MakesState, TellsStateEmpty};

use basics::Refusal;

// A builder without the bytes of its first key: those stay where they are, to compute the shared prefix. Bytes past the key's length tell nothing.
#[derive(Clone, Copy)]
pub struct State {
    pub block_size: usize,
    // How much of the data buffer is used.
    pub used: usize,
    // How many rows there are, each with a place of the offset buffer.
    pub rows: usize,
    pub first_key_len: usize,
}

// A refused constructor gives the numbers of a builder of size 0, with nothing used, beside its refusal.
#[derive(Clone, Copy)]
pub struct NewState {
    pub state: State,
    pub answer: Result<(), Refusal>,
}

fn empty_state(block_size: usize) -> State
    ensures { result ≡ state_from (fresh block_size) }
{
    State {
        block_size,
        used: 0,
        rows: 0,
        first_key_len: 0,
    }
}

// A new builder with no row: 8.
pub fn new_state(block_size: usize) -> NewState
    ensures { MakesState block_size result }
{
    if basics::MAX_BLOCK < block_size {
        return NewState {
            state: empty_state(0),
            answer: Err(Refusal::BadSettings),
        };
    }
    NewState {
        state: empty_state(block_size),
        answer: Ok(()),
    }
}

// Whether there is no row. Any state answers.
pub fn is_empty_state(s: State) -> bool
    ensures { TellsStateEmpty s result }
{
    s.rows == 0
}
