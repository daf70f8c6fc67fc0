// A builder as lent words, loaded from them and stored to them, and what a call that offers it a row starts from.
// Words that are not as many as they must be are neither loaded nor stored to.
#![tactic(auto)]

ghost use Rattle.std.specs.Prelude.{◌≡◌};
ghost use Rattle.builder_words.specs.Promise.{LoadsState, PutsState, LoadsOffer};

use row_words::Offer;
use state_v2::State;

pub const BUILDER_WORDS: usize = 6;

pub fn state_in(words: &[u64]) -> Option<State>
    ensures { LoadsState words.now result }
{
    if words.len() != BUILDER_WORDS {
        return None;
    }
    Some(State {
        block_size: words[0] as usize,
        restart_interval: words[1] as usize,
        used: words[2] as usize,
        restarts: words[3] as usize,
        counter: words[4] as usize,
        last_key_len: words[5] as usize,
    })
}

pub fn put_state(words: &mut [u64], s: State) -> bool
    ensures { PutsState s words.old result words.new }
{
    if words.len() != BUILDER_WORDS {
        return false;
    }
    words[0] = s.block_size as u64;
    words[1] = s.restart_interval as u64;
    words[2] = s.used as u64;
    words[3] = s.restarts as u64;
    words[4] = s.counter as u64;
    words[5] = s.last_key_len as u64;
    true
}

// The builder that a row is offered to, by its words and as many bytes as the longest key has, and the row's fields.
pub fn offer_in(builder: &[u64], last_key: &[u8], fields: &[u64]) -> Option<Offer<State>>
    ensures { LoadsOffer builder.now last_key.now fields.now result }
{
    let state = state_in(builder)?;
    if last_key.len() != basics::MAX_KEY {
        return None;
    }
    let row = row_words::fields_in(fields)?;
    Some(Offer { state, row })
}
