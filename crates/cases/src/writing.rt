// Cases 1 to 5 and 11, and the slips on writing.
use crate::show;
use basics::Kind;
use block_v2::BlockBuilderV2;
use replay_text::say;
use row_flags::RowFields;
use std::io;

fn fields(seq: u64) -> RowFields {
    RowFields {
        kind: Kind::Value,
        seq,
        expire: None,
        create: None,
    }
}

fn row(
    rt: &impl Print,
    previous_len: usize,
    shared: usize,
    suffix: &[u8],
    value: &[u8],
    held: RowFields,
) -> io::Result<()> {
    let mut out = [0u8; 64];
    match row_encode_v2::encode(&mut out, previous_len, shared, suffix, value, held) {
        Ok(n) => show::bytes(rt, &out, n),
        Err(r) => say::refusal(rt, r),
    }
}

pub fn rows(rt: &impl Print) -> io::Result<()> {
    print!(rt; "case 1: ")?;
    row(rt, 0, 0, b"a", b"", fields(1))
}

// Offers a row to the builder, and says whether it was taken.
fn add(
    rt: &impl Print,
    builder: BlockBuilderV2,
    data: &mut [u8],
    restarts: &mut [u16],
    key: &[u8],
    value: &[u8],
    seq: u64,
) -> io::Result<BlockBuilderV2> {
    let added = builder.add(data, restarts, key, value, fields(seq));
    match added.answer {
        Ok(()) => println!(rt; "taken")?,
        Err(r) => say::refusal(rt, r)?,
    }
    Ok(added.builder)
}

fn built(
    rt: &impl Print,
    builder: BlockBuilderV2,
    data: &mut [u8],
    restarts: &[u16],
) -> io::Result<()> {
    match builder.build(data, restarts).answer {
        Ok(n) => show::bytes(rt, data, n),
        Err(r) => say::refusal(rt, r),
    }
}

// Case 2's two rows, and the block of those that were taken.
fn two_rows(rt: &impl Print, block_size: usize, restart_interval: usize) -> io::Result<()> {
    let mut data = [0u8; 64];
    let mut restarts = [0u16; 4];
    let fresh = BlockBuilderV2::new_with_restart_interval(block_size, restart_interval).builder;
    let one = add(rt, fresh, &mut data, &mut restarts, b"a", b"", 1)?;
    let two = add(rt, one, &mut data, &mut restarts, b"ab", b"x", 2)?;
    built(rt, two, &mut data, &restarts)
}

pub fn blocks(rt: &impl Print) -> io::Result<()> {
    println!(rt; "case 2")?;
    two_rows(rt, 4096, basics::DEFAULT_RESTART_INTERVAL)?;
    println!(rt; "case 3, block size 31")?;
    two_rows(rt, 31, basics::DEFAULT_RESTART_INTERVAL)?;
    println!(rt; "case 3, block size 30")?;
    two_rows(rt, 30, basics::DEFAULT_RESTART_INTERVAL)?;
    println!(rt; "case 4")?;
    two_rows(rt, 4096, 1)
}

// The block that `cases_reads` is about.
pub fn five_rows(rt: &impl Print) -> io::Result<()> {
    println!(rt; "keys a, b, b, b, c")?;
    let mut data = [0u8; 72];
    let mut restarts = [0u16; 3];
    let mut builder = BlockBuilderV2::new_with_restart_interval(4096, 2).builder;
    for (key, seq) in [(b"a", 0), (b"b", 3), (b"b", 2), (b"b", 1), (b"c", 4)] {
        builder = add(rt, builder, &mut data, &mut restarts, key, b"", seq)?;
    }
    built(rt, builder, &mut data, &restarts)
}

fn varint(rt: &impl Print, v: u32) -> io::Result<()> {
    let mut out = [0u8; 5];
    match utils::encode_varint(&mut out, 0, v) {
        Ok(n) => show::bytes(rt, &out, n),
        Err(r) => say::refusal(rt, r),
    }
}

pub fn numbers(rt: &impl Print) -> io::Result<()> {
    println!(rt; "case 5")?;
    varint(rt, 127)?;
    varint(rt, 128)?;
    varint(rt, 16383)?;
    varint(rt, 16384)
}

// A first row with this value, then one more, both restarts. The first takes 15 bytes beside its value.
fn second_restart(rt: &impl Print, value: &[u8]) -> io::Result<()> {
    let mut data = [0u8; 65600];
    let mut restarts = [0u16; 2];
    let fresh = BlockBuilderV2::new_with_restart_interval(131072, 1).builder;
    let one = add(rt, fresh, &mut data, &mut restarts, b"a", value, 1)?;
    println!(rt; "the next row at {}", one.state.used)?;
    add(rt, one, &mut data, &mut restarts, b"b", b"", 2)?;
    Ok(())
}

pub fn far_restarts(rt: &impl Print) -> io::Result<()> {
    println!(rt; "case 11")?;
    let value = [0u8; 65520];
    second_restart(rt, &value)?;
    let longer = [0u8; 65521];
    second_restart(rt, &longer)
}

// The refused row shares two bytes with the row after it; the row before shares one.
fn refused_key(rt: &impl Print) -> io::Result<()> {
    let mut data = [0u8; 64];
    let mut restarts = [0u16; 4];
    let fresh = BlockBuilderV2::new(32).builder;
    let one = add(rt, fresh, &mut data, &mut restarts, b"a", b"", 1)?;
    let same = add(rt, one, &mut data, &mut restarts, b"abcd", b"x", 2)?;
    let two = add(rt, same, &mut data, &mut restarts, b"abc", b"", 3)?;
    built(rt, two, &mut data, &restarts)
}

pub fn slips(rt: &impl Print) -> io::Result<()> {
    println!(rt; "the last key of a refused row")?;
    refused_key(rt)?;
    print!(rt; "the expire time, then the create time: ")?;
    row(
        rt,
        0,
        0,
        b"a",
        b"",
        RowFields {
            kind: Kind::Merge,
            seq: 1,
            expire: Some(2),
            create: Some(3),
        },
    )
}
