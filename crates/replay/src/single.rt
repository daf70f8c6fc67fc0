// The commands on one row or one number.
use replay_text::{offered, parse, show, words};
use row_flags::RowFields;
use std::io;

// The row's size, from its lengths alone.
fn size(
    rt: &impl Print,
    shared: usize,
    suffix_len: usize,
    value_len: usize,
    row: RowFields,
) -> io::Result<()> {
    match row_size_v2::encoded_size(
        shared, suffix_len, row.kind, value_len, row.expire, row.create,
    ) {
        Ok(n) => print!(rt; "{n}"),
        Err(r) => show::refusal(rt, r),
    }
}

// The row's bytes, after a key that is just long enough.
fn encoded(
    rt: &impl Print,
    shared: usize,
    suffix: &[u8],
    value: &[u8],
    row: RowFields,
) -> io::Result<()> {
    let mut out = [0u8; 32768];
    match row_encode_v2::encode(&mut out, shared, shared, suffix, value, row) {
        Ok(n) => show::bytes(rt, &out, 0, n),
        Err(r) => show::refusal(rt, r),
    }
}

// row2 SHARED ROW, whose key is the suffix: the row's bytes, and its size.
pub fn row(rt: &impl Print, line: &[u8]) -> io::Result<()> {
    let shared = parse::number(words::word(line, b' ', 1)) as usize;
    let row = words::word(line, b' ', 2);
    let mut suffix = [0u8; 8192];
    let mut value = [0u8; 8192];
    let k = offered::key(row, &mut suffix);
    let v = offered::value(row, &mut value);
    let fields = offered::fields(row);
    encoded(rt, shared, &suffix[..k], &value[..v], fields)?;
    print!(rt; " ")?;
    size(rt, shared, k, v, fields)
}

// varint N
pub fn varint(rt: &impl Print, line: &[u8]) -> io::Result<()> {
    let n = parse::number(words::word(line, b' ', 1));
    let mut out = [0u8; 5];
    match utils::encode_varint(&mut out, 0, (n % 4294967296) as u32) {
        Ok(next) => show::bytes(rt, &out, 0, next),
        Err(r) => show::refusal(rt, r),
    }
}

// The share, the row with its suffix as its key, and how many bytes were read.
fn decoded_row(rt: &impl Print, s: &[u8]) -> io::Result<()> {
    match row_decode_v2::decode(s, basics::MAX_KEY) {
        Ok(row) => {
            print!(rt; "{} ", row.shared)?;
            show::bytes(rt, s, row.suffix_at, row.suffix_len)?;
            show::row(rt, s, row)?;
            print!(rt; " {}", row.next)
        }
        Err(r) => show::refusal(rt, r),
    }
}

// The suffix, and how many bytes were read.
fn suffix(rt: &impl Print, s: &[u8], at: usize, len: usize) -> io::Result<()> {
    if len == 0 {
        print!(rt; "-")?;
    }
    show::bytes(rt, s, at, len)?;
    print!(rt; " {}", at.wrapping_add(len))
}

fn decoded_key(rt: &impl Print, s: &[u8]) -> io::Result<()> {
    match row_decode_v2::decode_key_only(s, 0, s.len(), basics::MAX_KEY, false) {
        Ok(place) => {
            print!(rt; "{} ", place.shared)?;
            suffix(rt, s, place.suffix_at, place.suffix_len)
        }
        Err(r) => show::refusal(rt, r),
    }
}

// The number, and how many bytes were read.
fn decoded_varint(rt: &impl Print, s: &[u8]) -> io::Result<()> {
    match utils_decode::decode_varint(s, 0) {
        Ok(read) => print!(rt; "{} {}", read.value, read.next),
        Err(r) => show::refusal(rt, r),
    }
}

// The bytes that the line's word spells, given to what reads them.
fn read<F: FnOnce(&[u8]) -> io::Result<()>>(line: &[u8], decoded: F) -> io::Result<()>
    requires { F.IsAlwaysCallable decoded }
{
    let mut s = [0u8; 8192];
    let n = parse::bytes(words::word(line, b' ', 1), &mut s);
    decoded(&s[..n])
}

// unrow2 HEX
pub fn unrow(rt: &impl Print, line: &[u8]) -> io::Result<()> {
    read(line, |s| decoded_row(rt, s))
}

// key2 HEX
pub fn key(rt: &impl Print, line: &[u8]) -> io::Result<()> {
    read(line, |s| decoded_key(rt, s))
}

// unvarint HEX
pub fn unvarint(rt: &impl Print, line: &[u8]) -> io::Result<()> {
    read(line, |s| decoded_varint(rt, s))
}
