// Words of a text, between single marks. One that isn't there is empty.
ghost use Rattle.std.specs.Prelude.{◌+◌, ◌-◌, ◌≤◌, length};

// Where the word ends that starts at `from`: not before it, unless it lies past the end, where all words end.
pub fn end(s: &[u8], from: usize, mark: u8) -> usize
    ensures { (from ≤ result + (from - length s.now)) × (result ≤ length s.now) }
{
    let Some(rest) = s.get(from..) else {
        return s.len();
    };
    match rest.iter().position(|b| *b == mark) {
        Some(n) => from + n,
        None => s.len(),
    }
}

pub fn word<'a>(s: &'a [u8], mark: u8, number: usize) -> &'a [u8] {
    s.split(|b| *b == mark).nth(number).unwrap_or(b"")
}

// How many words there are.
pub fn count(s: &[u8], mark: u8) -> usize {
    s.split(|b| *b == mark).count()
}
