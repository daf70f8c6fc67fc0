// One row: its size, its bytes, the row read from bytes, its key put together.
use basics::{Kind, Refusal};
use replay_text::say;
use row_flags::RowFields;
use std::io;

pub const LONGEST: usize = basics::MAX_KEY;

pub const LONGER: usize = basics::MAX_KEY + 1;
// A row with such a key, alone: the three lengths take 1, 2 and 1 bytes, its number and flags 9.
pub const ROW: usize = LONGEST + 13;

pub fn fields() -> RowFields {
    RowFields {
        kind: Kind::Value,
        seq: 1,
        expire: None,
        create: None,
    }
}

fn sized(rt: &impl Print, key_len: usize) -> io::Result<()> {
    print!(rt; "size: ")?;
    told(
        rt,
        row_size_v2::encoded_size(0, key_len, Kind::Value, 0, None, None),
    )
}

// A count, or why there is none.
pub fn told(rt: &impl Print, answer: Result<usize, Refusal>) -> io::Result<()> {
    match answer {
        Ok(n) => println!(rt; "{n}"),
        Err(r) => say::refusal(rt, r),
    }
}

fn encoded(rt: &impl Print, key: &[u8]) -> io::Result<()> {
    print!(rt; "encoded: ")?;
    let mut out = [0u8; 8192];
    told(
        rt,
        row_encode_v2::encode(&mut out, 0, 0, key, b"", fields()),
    )
}

fn decoded(rt: &impl Print, row: &[u8]) -> io::Result<()> {
    print!(rt; "decoded, a row up to: ")?;
    told(rt, row_decode_v2::decode(row, 0).map(|found| found.next))
}

// All but the last byte are shared.
fn restored(rt: &impl Print, key: &[u8], shared: usize) -> io::Result<()> {
    print!(rt; "restored: ")?;
    let mut out = [0u8; 8192];
    told(
        rt,
        row_size_v2::restore_full_key(&mut out, key, shared, b"k"),
    )
}

fn all(rt: &impl Print, key: &[u8], row: &[u8], shared: usize) -> io::Result<()> {
    sized(rt, key.len())?;
    encoded(rt, key)?;
    decoded(rt, row)?;
    restored(rt, key, shared)
}

// The head and the tail of a row around its key, which the buffer holds: the lengths, then the sequence number 1 and no flags.
pub fn lay(row: &mut [u8], lengths: &[u8], after: usize) {
    let _ = buf_mut::copy_in(row, 0, lengths);
    let _ = buf_mut::copy_in(row, after, b"\x00\x00\x00\x00\x00\x00\x00\x01\x00");
}

pub fn longest(rt: &impl Print) -> io::Result<()> {
    let key = [b'k'; LONGEST];
    let mut row = [b'k'; ROW];
    lay(&mut row, b"\x00\x80\x20\x00", LONGEST + 4);
    all(rt, &key, &row, LONGEST - 1)
}

pub fn longer(rt: &impl Print) -> io::Result<()> {
    let key = [b'k'; LONGER];
    let mut row = [b'k'; ROW + 1];
    lay(&mut row, b"\x00\x81\x20\x00", LONGER + 4);
    all(rt, &key, &row, LONGER - 1)
}
