// What is built: rows offered to a builder over buffers that hold something before, and the finished block.
use basics::Kind;
use block_v1::BlockBuilderV1;
use replay_text::{say, show};
use row_flags::RowFields;
use state_v1::State;
use std::io;

fn value(seq: u64) -> RowFields {
    RowFields {
        kind: Kind::Value,
        seq,
        expire: None,
        create: None,
    }
}

// Offers a row to the builder, and says whether it was taken.
fn add(
    rt: &impl Print,
    builder: BlockBuilderV1,
    data: &mut [u8],
    offsets: &mut [u16],
    key: &[u8],
    bytes: &[u8],
    row: RowFields,
) -> io::Result<BlockBuilderV1> {
    let added = builder.add(data, offsets, key, bytes, row);
    match added.answer {
        Ok(()) => println!(rt; "taken")?,
        Err(r) => say::refusal(rt, r)?,
    }
    Ok(added.builder)
}

fn built(
    rt: &impl Print,
    builder: BlockBuilderV1,
    data: &mut [u8],
    offsets: &[u16],
) -> io::Result<()> {
    match builder.build(data, offsets).answer {
        Ok(n) => {
            print!(rt; "{n} bytes: ")?;
            show::bytes(rt, data, 0, n)?;
            println!(rt;)
        }
        Err(r) => say::refusal(rt, r),
    }
}

pub fn three_rows(rt: &impl Print) -> io::Result<()> {
    println!(rt; "keys a, ab and b")?;
    let mut data = [255u8; 96];
    let mut offsets = [255u16; 4];
    let fresh = BlockBuilderV1::new(4096).builder;
    let one = add(rt, fresh, &mut data, &mut offsets, b"a", b"", value(1))?;
    let two = add(rt, one, &mut data, &mut offsets, b"ab", b"x", value(2))?;
    let three = add(rt, two, &mut data, &mut offsets, b"b", b"", value(3))?;
    built(rt, three, &mut data, &offsets)
}

// The row of "a", then one of "ab".
fn two_rows(rt: &impl Print, block_size: usize, bytes: &[u8], second: RowFields) -> io::Result<()> {
    let mut data = [255u8; 96];
    let mut offsets = [255u16; 4];
    let fresh = BlockBuilderV1::new(block_size).builder;
    let one = add(rt, fresh, &mut data, &mut offsets, b"a", b"", value(1))?;
    let two = add(rt, one, &mut data, &mut offsets, b"ab", bytes, second)?;
    built(rt, two, &mut data, &offsets)
}

// One row, of the key "a", has used so many bytes.
fn row_at(rt: &impl Print, used: usize) -> io::Result<()> {
    let mut data = [0u8; 65600];
    let mut offsets = [0u16; 2];
    let state = State {
        block_size: basics::MAX_BLOCK,
        used,
        rows: 1,
        first_key_len: 1,
    };
    let builder = BlockBuilderV1 {
        state,
        first_key: [b'a'; basics::MAX_KEY],
    };
    add(rt, builder, &mut data, &mut offsets, b"b", b"", value(2))?;
    Ok(())
}

pub fn sizes(rt: &impl Print) -> io::Result<()> {
    println!(rt; "block size 41: the block may be 2 bytes over")?;
    two_rows(rt, 41, b"x", value(2))?;
    println!(rt; "block sizes 40 and 0")?;
    two_rows(rt, 40, b"x", value(2))?;
    two_rows(rt, 0, b"x", value(2))?;
    println!(rt; "no row")?;
    let mut data = [255u8; 96];
    let offsets = [255u16; 4];
    built(rt, BlockBuilderV1::new(0).builder, &mut data, &offsets)?;
    println!(rt; "a row at 65535, and at 65536")?;
    row_at(rt, 65535)?;
    row_at(rt, 65536)
}

// Two bytes are offered for it, and not written.
pub fn tombstone(rt: &impl Print) -> io::Result<()> {
    println!(rt; "a tombstone with both times")?;
    let held = RowFields {
        kind: Kind::Tombstone,
        seq: 2,
        expire: Some(7),
        create: Some(-1),
    };
    two_rows(rt, 4096, b"xy", held)
}
