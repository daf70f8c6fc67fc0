// A builder's numbers, without the bytes of its last key: a new one, and whether it has no row.
// Follows slatedb 0.16.0, src/format/block_v2.rs (Apache License 2.0), and is changed: a builder is numbers that come back by value, its rows and restarts lie in lent
// buffers, and settings outside their limits are a refusal.
#![tactic(auto)]

ghost use Rattle.std.specs.Prelude.{◌≡◌};
ghost use Rattle.layout.specs.Builder.{fresh};
ghost use Rattle.state_v2.specs.Says.{state_from};
ghost use Rattle.state_v2.specs.Promise.{MakesState, TellsStateEmpty};

use basics::Refusal;

// A builder without the bytes of its last key: those stay where they are, to compute the shared prefix. Bytes past the key's length tell nothing.
#[derive(Clone, Copy)]
pub struct State {
    pub block_size: usize,
    pub restart_interval: usize,
    // How much of the data buffer is used, and how many places of the restart buffer.
    pub used: usize,
    pub restarts: usize,
    // How many rows there are.
    pub counter: usize,
    pub last_key_len: usize,
}

// A refused constructor gives the numbers of a builder of size 0 and interval 1, with nothing used, beside its refusal.
#[derive(Clone, Copy)]
pub struct NewState {
    pub state: State,
    pub answer: Result<(), Refusal>,
}

fn empty_state(block_size: usize, restart_interval: usize) -> State
    ensures { result ≡ state_from (fresh block_size restart_interval) }
{
    State {
        block_size,
        restart_interval,
        used: 0,
        restarts: 0,
        counter: 0,
        last_key_len: 0,
    }
}

// A new builder with no row: 8.
pub fn new_state(block_size: usize, restart_interval: usize) -> NewState
    ensures { MakesState block_size restart_interval result }
{
    let bad = NewState {
        state: empty_state(0, 1),
        answer: Err(Refusal::BadSettings),
    };
    if basics::MAX_BLOCK < block_size {
        return bad;
    }
    if restart_interval == 0 {
        return bad;
    }
    if basics::MAX_INTERVAL < restart_interval {
        return bad;
    }
    NewState {
        state: empty_state(block_size, restart_interval),
        answer: Ok(()),
    }
}

// Whether there is no row. Any state answers.
pub fn is_empty_state(s: State) -> bool
    ensures { TellsStateEmpty s result }
{
    s.counter == 0
}
