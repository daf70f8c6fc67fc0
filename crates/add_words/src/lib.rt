// A row added over lent words: the builder is its words and the bytes of its last key, and the answer a code.
#![tactic(auto)]

ghost use Rattle.std.specs.Prelude.{◌≡◌, length};
ghost use Rattle.row_words.specs.Words.{builder_count};
ghost use Rattle.builder_words.specs.Exports.{AddsFlat};
ghost use Rattle.add_words.specs.Says.{PutsGrown};

use basics::Refusal;
use state_v2::State;

// Puts the builder with the row back.
fn put_grown(builder: &mut [u64], grown: Result<State, Refusal>) -> u8
    requires { length builder.old ≡ builder_count }
    ensures { PutsGrown grown builder.old result builder.new }
{
    match grown {
        Ok(t) => {
            builder_words::put_state(builder, t);
            block_words::GOOD
        }
        Err(refusal) => u8::from(refusal),
    }
}

// Adds a row, in place: 254, 18, 1, 2, 3, 4, 5, 6.
pub fn add(
    builder: &mut [u64],
    last_key: &mut [u8],
    data: &mut [u8],
    restarts: &mut [u16],
    key: &[u8],
    value: &[u8],
    fields: &[u64],
) -> u8
    ensures { AddsFlat builder.old last_key.old «data».old restarts.old key.now value.now fields.now result builder.new last_key.new «data».new restarts.new }
{
    let Some(offer) = builder_words::offer_in(builder, last_key, fields) else {
        return block_words::BAD_WORDS;
    };
    let grown = build_in_place_v2::add_in_place(
        last_key,
        offer.state,
        data,
        restarts,
        key,
        value,
        offer.row,
    );
    put_grown(builder, grown)
}
