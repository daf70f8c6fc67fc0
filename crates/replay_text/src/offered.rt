// A row that is offered, from its word.
ghost use Rattle.std.specs.Prelude.{◌≤◌, length};

use crate::{parse, words};
use basics::Kind;
use row_flags::RowFields;

// Two's complement makes the bits of a negative number. A sign alone is no time.
fn time(word: &[u8]) -> Option<i64> {
    match word {
        b"-" => None,
        [b'-', ..] => Some(parse::number(word).wrapping_neg().cast_signed()),
        _ => Some(parse::number(word).cast_signed()),
    }
}

fn kind(word: &[u8]) -> Kind {
    match word {
        [b't', ..] => Kind::Tombstone,
        [b'm', ..] => Kind::Merge,
        _ => Kind::Value,
    }
}

pub fn key(row: &[u8], out: &mut [u8]) -> usize
    ensures { result ≤ length out.new }
{
    parse::bytes(words::word(row, b':', 0), out)
}

pub fn value(row: &[u8], out: &mut [u8]) -> usize
    ensures { result ≤ length out.new }
{
    parse::bytes(words::word(row, b':', 2), out)
}

// What a row holds beside its key and its value.
pub fn fields(row: &[u8]) -> RowFields {
    RowFields {
        kind: kind(words::word(row, b':', 1)),
        seq: parse::number(words::word(row, b':', 3)),
        expire: time(words::word(row, b':', 4)),
        create: time(words::word(row, b':', 5)),
    }
}
