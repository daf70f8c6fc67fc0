// A refusal, as a line of text.
use basics::Refusal;
use std::io;

pub fn refusal(rt: &impl Print, r: Refusal) -> io::Result<()> {
    let number = u8::from(r);
    println!(rt; "refusal {number}")
}
