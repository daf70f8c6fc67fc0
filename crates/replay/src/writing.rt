// The commands on a builder.
use basics::Refusal;
use block_v2::BlockBuilderV2;
use replay_text::{offered, parse, show, words};
use std::io;

// How long the builder's buffers are.
const DATA: usize = 8192;

const PLACES: usize = 1024;

// The builder with the settings of the line. A refusal is said, as a word by itself, whatever follows.
fn fresh(rt: &impl Print, line: &[u8]) -> io::Result<BlockBuilderV2> {
    let block_size = parse::number(words::word(line, b' ', 1)) as usize;
    let interval = parse::number(words::word(line, b' ', 2)) as usize;
    let made = BlockBuilderV2::new_with_restart_interval(block_size, interval);
    if let Err(r) = made.answer {
        show::refusal(rt, r)?;
        print!(rt; " ")?;
    }
    Ok(made.builder)
}

// Whether a row is taken.
fn taken(rt: &impl Print, answer: Result<(), Refusal>) -> io::Result<()> {
    match answer {
        Ok(()) => print!(rt; "1"),
        Err(r) => show::refusal(rt, r),
    }
}

// Offers a row to the builder, and says what came of it.
fn add(
    rt: &impl Print,
    row: &[u8],
    builder: BlockBuilderV2,
    data: &mut [u8],
    restarts: &mut [u16],
) -> io::Result<BlockBuilderV2> {
    let mut key = [0u8; 8192];
    let mut value = [0u8; 8192];
    let k = offered::key(row, &mut key);
    let v = offered::value(row, &mut value);
    let added = builder.add(data, restarts, &key[..k], &value[..v], offered::fields(row));
    taken(rt, added.answer)?;
    print!(rt; " ")?;
    Ok(added.builder)
}

// Adds the rows before the word with the number `to`.
fn add_rows(
    rt: &impl Print,
    line: &[u8],
    to: usize,
    data: &mut [u8],
    restarts: &mut [u16],
) -> io::Result<BlockBuilderV2> {
    let mut builder = fresh(rt, line)?;
    for row in line.split(|b| *b == b' ').take(to).skip(3) {
        builder = add(rt, row, builder, data, restarts)?;
    }
    Ok(builder)
}

// build2 BLOCK_SIZE INTERVAL ROW..: a word for each row, then the block.
pub fn build(rt: &impl Print, line: &[u8]) -> io::Result<()> {
    let mut data = [0u8; DATA];
    let mut restarts = [0u16; PLACES];
    let to = words::count(line, b' ');
    let all = add_rows(rt, line, to, &mut data, &mut restarts)?;
    match all.build(&mut data, &restarts).answer {
        Ok(n) => show::bytes(rt, &data, 0, n),
        Err(r) => show::refusal(rt, r),
    }
}

// Whether the builder would take the row, over buffers of these lengths.
fn fits(
    rt: &impl Print,
    row: &[u8],
    builder: BlockBuilderV2,
    data_len: usize,
    places_len: usize,
) -> io::Result<()> {
    let mut key = [0u8; 8192];
    let mut value = [0u8; 8192];
    let k = offered::key(row, &mut key);
    let v = offered::value(row, &mut value);
    let fields = offered::fields(row);
    taken(
        rt,
        builder.would_fit(data_len, places_len, &key[..k], &value[..v], fields),
    )
}

// fit2 BLOCK_SIZE INTERVAL ROW..: a word for each row but the last, then whether that one fits.
pub fn fit(rt: &impl Print, line: &[u8]) -> io::Result<()> {
    let mut data = [0u8; DATA];
    let mut restarts = [0u16; PLACES];
    let last = words::count(line, b' ').wrapping_sub(1);
    let most = add_rows(rt, line, last, &mut data, &mut restarts)?;
    fits(rt, words::word(line, b' ', last), most, DATA, PLACES)
}
