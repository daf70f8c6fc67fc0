// Bytes, as a line of text.
use std::io;

// A count, and the first so many bytes of a buffer.
pub fn bytes(rt: &impl Print, buf: &[u8], n: usize) -> io::Result<()> {
    print!(rt; "{n} bytes:")?;
    for b in buf.iter().take(n) {
        print!(rt; " {b:02x}")?;
    }
    println!(rt;)
}
