// A block's builder: asked about the row, given it, and made to build.
use crate::rows;
use basics::Refusal;
use block_v2::BlockBuilderV2;
use replay_text::say;
use std::io;

fn verdict(rt: &impl Print, answer: Result<(), Refusal>) -> io::Result<()> {
    match answer {
        Ok(()) => println!(rt; "yes"),
        Err(r) => say::refusal(rt, r),
    }
}

fn built(
    rt: &impl Print,
    builder: BlockBuilderV2,
    data: &mut [u8],
    restarts: &[u16],
) -> io::Result<()> {
    print!(rt; "built: ")?;
    rows::told(rt, builder.build(data, restarts).answer)
}

fn asked(rt: &impl Print, builder: BlockBuilderV2, key: &[u8]) -> io::Result<()> {
    print!(rt; "would fit: ")?;
    verdict(rt, builder.would_fit(8192, 1, key, b"", rows::fields()))
}

fn offered(rt: &impl Print, key: &[u8]) -> io::Result<()> {
    let fresh = BlockBuilderV2::new(8192).builder;
    asked(rt, fresh, key)?;
    let mut data = [0u8; 8192];
    let mut restarts = [0u16; 1];
    let added = fresh.add(&mut data, &mut restarts, key, b"", rows::fields());
    print!(rt; "added: ")?;
    verdict(rt, added.answer)?;
    built(rt, added.builder, &mut data, &restarts)
}

pub fn longest(rt: &impl Print) -> io::Result<()> {
    let key = [b'k'; rows::LONGEST];
    offered(rt, &key)
}

pub fn longer(rt: &impl Print) -> io::Result<()> {
    let key = [b'k'; rows::LONGER];
    offered(rt, &key)
}

// Two keys that differ in their last byte: the second row shares all but that.
pub fn shared(rt: &impl Print) -> io::Result<()> {
    let mut data = [0u8; 8192];
    let mut restarts = [0u16; 1];
    let mut key = [b'k'; rows::LONGEST];
    let fresh = BlockBuilderV2::new(8192).builder;
    let one = fresh.add(&mut data, &mut restarts, &key, b"", rows::fields());
    key[rows::LONGEST - 1] = b'l';
    let two = one
        .builder
        .add(&mut data, &mut restarts, &key, b"", rows::fields());
    built(rt, two.builder, &mut data, &restarts)
}

// A builder that says its last key is so long.
fn carries(rt: &impl Print, last_key_len: usize) -> io::Result<()> {
    let mut builder = BlockBuilderV2::new(8192).builder;
    builder.state.last_key_len = last_key_len;
    asked(rt, builder, b"k")
}

pub fn carried(rt: &impl Print) -> io::Result<()> {
    carries(rt, rows::LONGEST)?;
    carries(rt, rows::LONGER)
}
