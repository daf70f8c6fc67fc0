// A builder of the earlier format as lent words, loaded from them and stored to them, and what a call that offers it a row starts from.
// Words that are not as many as they must be are neither loaded nor stored to.
#![tactic(auto)]

ghost use Rattle.std.specs.Prelude.{◌≡◌};
ghost use Rattle.builder_words_v1.specs.Promise.{LoadsState, PutsState, LoadsOffer};

use row_words::Offer;
use state_v1::State;

pub const BUILDER_WORDS: usize = 4;

pub fn state_in(words: &[u64]) -> Option<State>
    ensures { LoadsState words.now result }
{
    if words.len() != BUILDER_WORDS {
        return None;
    }
    Some(State {
        block_size: words[0] as usize,
        used: words[1] as usize,
        rows: words[2] as usize,
        first_key_len: words[3] as usize,
    })
}

pub fn put_state(words: &mut [u64], s: State) -> bool
    ensures { PutsState s words.old result words.new }
{
    if words.len() != BUILDER_WORDS {
        return false;
    }
    words[0] = s.block_size as u64;
    words[1] = s.used as u64;
    words[2] = s.rows as u64;
    words[3] = s.first_key_len as u64;
    true
}

// The builder that a row is offered to, by its words and as many bytes as the longest key has, and the row's fields.
pub fn offer_in(builder: &[u64], first_key: &[u8], fields: &[u64]) -> Option<Offer<State>>
    ensures { LoadsOffer builder.now first_key.now fields.now result }
{
    let state = state_in(builder)?;
    if first_key.len() != basics::MAX_KEY {
        return None;
    }
    let row = row_words::fields_in(fields)?;
    Some(Offer { state, row })
}
