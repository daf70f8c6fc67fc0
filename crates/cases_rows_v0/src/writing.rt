// What is written: the bytes of rows, each read back; sizes; and what is refused.
use crate::reading;
use basics::Kind;
use replay_text::{say, show};
use row_flags::RowFields;
use std::io;

fn fields(kind: Kind, seq: u64, expire: Option<i64>, create: Option<i64>) -> RowFields {
    RowFields {
        kind,
        seq,
        expire,
        create,
    }
}

fn plain(kind: Kind, seq: u64) -> RowFields {
    fields(kind, seq, None, None)
}

fn row(
    rt: &impl Print,
    first_len: usize,
    shared: usize,
    suffix: &[u8],
    value: &[u8],
    held: RowFields,
) -> io::Result<()> {
    let mut out = [255u8; 64];
    match row_encode_v0::encode(&mut out, first_len, shared, suffix, value, held) {
        Ok(n) => {
            print!(rt; "{n} bytes: ")?;
            show::bytes(rt, &out, 0, n)?;
            println!(rt;)?;
            reading::alone(rt, &out, first_len)
        }
        Err(r) => say::refusal(rt, r),
    }
}

pub fn rows(rt: &impl Print) -> io::Result<()> {
    println!(rt; "the row of a")?;
    row(rt, 0, 0, b"a", b"", plain(Kind::Value, 1))?;
    row(rt, 0, 0, b"a", b"", plain(Kind::Tombstone, 1))?;
    row(rt, 1, 1, b"", b"", plain(Kind::Tombstone, 2))?;
    println!(rt; "rows after it")?;
    row(rt, 1, 1, b"b", b"x", plain(Kind::Value, 2))?;
    row(rt, 1, 0, b"b", b"", plain(Kind::Value, 3))?;
    println!(rt; "times")?;
    row(
        rt,
        0,
        0,
        b"a",
        b"x",
        fields(Kind::Value, 258, Some(259), Some(-1)),
    )?;
    row(rt, 0, 0, b"a", b"x", fields(Kind::Merge, 1, None, Some(5)))?;
    row(
        rt,
        0,
        0,
        b"a",
        b"xy",
        fields(Kind::Tombstone, 1, Some(7), Some(5)),
    )
}

fn size(
    rt: &impl Print,
    shared: usize,
    suffix_len: usize,
    kind: Kind,
    value_len: usize,
) -> io::Result<()> {
    match row_size_v0::encoded_size(shared, suffix_len, kind, value_len, None, None) {
        Ok(n) => println!(rt; "{n}"),
        Err(r) => say::refusal(rt, r),
    }
}

pub fn sizes(rt: &impl Print) -> io::Result<()> {
    println!(rt; "sizes: values and keys at their limits, and over them")?;
    size(rt, 0, 1, Kind::Value, 65535)?;
    size(rt, 0, 1, Kind::Value, 65536)?;
    size(rt, 0, 1, Kind::Merge, 65536)?;
    size(rt, 0, 1, Kind::Tombstone, 65536)?;
    size(rt, 0, 4096, Kind::Value, 0)?;
    size(rt, 4096, 0, Kind::Value, 0)?;
    size(rt, 1, 4096, Kind::Value, 65536)?;
    size(rt, 0, 0, Kind::Value, 65536)?;
    println!(rt; "lengths whose sum would wrap")?;
    size(rt, 18446744073709551615, 1, Kind::Value, 0)?;
    size(
        rt,
        1,
        18446744073709551615,
        Kind::Value,
        18446744073709551615,
    )
}

// Whether a row with an empty value is taken, by a buffer of this length; one that refuses it is as it was.
fn taken(
    rt: &impl Print,
    first_len: usize,
    shared: usize,
    suffix: &[u8],
    out: &mut [u8],
) -> io::Result<()> {
    match row_encode_v0::encode(out, first_len, shared, suffix, b"", plain(Kind::Value, 1)) {
        Ok(n) => println!(rt; "taken: {n}"),
        Err(r) => {
            show::bytes(rt, out, 0, 2)?;
            print!(rt; " ")?;
            say::refusal(rt, r)
        }
    }
}

fn in_18_bytes(rt: &impl Print, first_len: usize, shared: usize, suffix: &[u8]) -> io::Result<()> {
    let mut out = [255u8; 18];
    taken(rt, first_len, shared, suffix, &mut out)
}

fn in_17_bytes(rt: &impl Print, first_len: usize, shared: usize, suffix: &[u8]) -> io::Result<()> {
    let mut out = [255u8; 17];
    taken(rt, first_len, shared, suffix, &mut out)
}

pub fn refusals(rt: &impl Print) -> io::Result<()> {
    println!(rt; "encoding: 13, 1, 2, 6")?;
    in_18_bytes(rt, 0, 1, b"")?;
    in_18_bytes(rt, 1, 2, b"")?;
    in_18_bytes(rt, 1, 0, b"")?;
    let long = [b'k'; 4096];
    in_18_bytes(rt, 4096, 1, &long)?;
    in_18_bytes(rt, 4096, 1, &long[..4095])?;
    in_17_bytes(rt, 0, 0, b"a")?;
    in_18_bytes(rt, 0, 0, b"a")
}

fn encoded(
    rt: &impl Print,
    out: &mut [u8],
    key: &[u8],
    value: &[u8],
    kind: Kind,
) -> io::Result<()> {
    match row_encode_v0::encode(out, 0, 0, key, value, plain(kind, 1)) {
        Ok(n) => {
            println!(rt; "taken: {n}")?;
            reading::ends(rt, out, 0)
        }
        Err(r) => say::refusal(rt, r),
    }
}

pub fn longest(rt: &impl Print) -> io::Result<()> {
    println!(rt; "the longest key, and one byte more")?;
    let key = [b'k'; 4097];
    let mut out = [0u8; 4114];
    encoded(rt, &mut out, &key[..4096], b"", Kind::Value)?;
    encoded(rt, &mut out, &key, b"", Kind::Value)?;
    println!(rt; "the longest value, and one byte more; of a tombstone it is not written")?;
    let value = [b'v'; 65536];
    let mut room = [0u8; 65553];
    encoded(rt, &mut room, b"a", &value[..65535], Kind::Value)?;
    encoded(rt, &mut room, b"a", &value, Kind::Value)?;
    encoded(rt, &mut room, b"a", &value, Kind::Merge)?;
    encoded(rt, &mut room, b"a", &value, Kind::Tombstone)
}
