// Bytes copied from one lent slice to another, in groups that LLVM makes one load and one store of: `copy_from_slice`, by those who know how many bytes there are.
#![tactic(auto)]

ghost use Rattle.std.specs.Prelude.{◌≡◌, ◌+◌, ◌≤◌, length, take, drop};
ghost use Rattle.layout.specs.Place.{splice};
ghost use Rattle.copies.specs.Promise.{CopiesFirst, CopiesAll};

// All bytes are read before the first store, and the places are one after another: so LLVM makes one load and one store of them.
fn copy_8_at(buf: &mut [u8], at: usize, src: &[u8], from: usize)
    requires { (at + 8 ≤ length buf.old) × (from + 8 ≤ length src.now) }
    ensures { buf.new ≡ splice buf.old at (take 8 (drop from src.now)) }
{
    let a = src[from];
    let b = src[from + 1];
    let c = src[from + 2];
    let d = src[from + 3];
    let e = src[from + 4];
    let f = src[from + 5];
    let g = src[from + 6];
    let h = src[from + 7];
    buf[at] = a;
    buf[at + 1] = b;
    buf[at + 2] = c;
    buf[at + 3] = d;
    buf[at + 4] = e;
    buf[at + 5] = f;
    buf[at + 6] = g;
    buf[at + 7] = h;
}

// Copies the first eight bytes of `src` to the start of `buf`; nothing where either has fewer. Of parts of eight bytes the compiler drops the tests.
pub fn copy_8(buf: &mut [u8], src: &[u8])
    ensures { CopiesFirst 8 src.now buf.old buf.new }
{
    if buf.len() < 8 {
        return;
    }
    if src.len() < 8 {
        return;
    }
    copy_8_at(buf, 0, src, 0);
}

// The same of the first four.
pub fn copy_4(buf: &mut [u8], src: &[u8])
    ensures { CopiesFirst 4 src.now buf.old buf.new }
{
    if buf.len() < 4 {
        return;
    }
    if src.len() < 4 {
        return;
    }
    let a = src[0];
    let b = src[1];
    let c = src[2];
    let d = src[3];
    buf[0] = a;
    buf[1] = b;
    buf[2] = c;
    buf[3] = d;
}

// Groups of eight, and last the eight bytes that end it, over what the groups have of them already.
fn copy_groups(buf: &mut [u8], at: usize, src: &[u8])
    requires { (8 ≤ length src.now) × (at + length src.now ≤ length buf.old) }
    ensures { buf.new ≡ splice buf.old at src.now }
{
    let n = src.len();
    let mut i = 0;
    while i + 8 < n {
        copy_8_at(buf, at + i, src, i);
        i += 8;
    }
    copy_8_at(buf, at + (n - 8), src, n - 8);
}

fn copy_each(buf: &mut [u8], at: usize, src: &[u8])
    requires { at + length src.now ≤ length buf.old }
    ensures { buf.new ≡ splice buf.old at src.now }
{
    for i in 0..src.len() {
        buf[at + i] = src[i];
    }
}

// LLVM makes a loop of wide loads and stores of the bytes one by one, which pays for many; groups of eight are quicker from 8 to 255.
fn copy_whole(buf: &mut [u8], at: usize, src: &[u8])
    requires { at + length src.now ≤ length buf.old }
    ensures { buf.new ≡ splice buf.old at src.now }
{
    let n = src.len();
    if n < 8 {
        copy_each(buf, at, src);
        return;
    }
    if n < 256 {
        copy_groups(buf, at, src);
        return;
    }
    copy_each(buf, at, src);
}

// Copies all of `src` to `at`, and answers whether there was room; where not, nothing is copied.
pub fn copy_all(buf: &mut [u8], at: usize, src: &[u8]) -> bool
    ensures { CopiesAll src.now buf.old at result buf.new }
{
    // Nothing, too, has no place past the end.
    if buf.len() < at {
        return false;
    }
    if buf.len() - at < src.len() {
        return false;
    }
    copy_whole(buf, at, src);
    true
}
