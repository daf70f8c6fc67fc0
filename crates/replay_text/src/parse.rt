// What a word stands for. The list has no word of another form; from such a one something is made all the same.
ghost use Rattle.std.specs.Prelude.{◌≤◌, length};

fn digit(b: u8) -> Option<u8> {
    match b {
        b'0'..=b'9' => Some(b - b'0'),
        b'a'..=b'f' => Some(b - b'a' + 10),
        _ => None,
    }
}

// The number with one more decimal digit. What is no such digit, as a sign, adds nothing, nor does one for which there is no room.
fn joined(n: u64, b: u8) -> u64 {
    match (n.checked_mul(10), digit(b)) {
        (Some(tens), Some(d)) if d < 10 => tens.wrapping_add(u64::from(d)),
        _ => n,
    }
}

pub fn number(word: &[u8]) -> u64 {
    word.iter().fold(0, |n, b| joined(n, *b))
}

// The byte that two digits spell. What is no digit counts as 0.
fn byte(high: u8, low: u8) -> u8 {
    digit(high).unwrap_or(0) % 16 * 16 + digit(low).unwrap_or(0) % 16
}

// Puts the word's bytes at the start of `out`, and answers how many there are: `-` has none.
pub fn bytes(word: &[u8], out: &mut [u8]) -> usize
    ensures { result ≤ length out.new }
{
    let n = (word.len() / 2).min(out.len());
    for (to, pair) in out.iter_mut().zip(word.chunks_exact(2)) {
        *to = byte(pair[0], pair[1]);
    }
    n
}
