// Numbers: how many bytes stand from a place on, the lesser of two, and a signed number's bits in two's complement.
// Follows slatedb 0.16.0, whose fixed numbers are those of the `bytes` crate (Apache License 2.0), and is changed: no cast wraps.
#![tactic(auto)]

ghost use Rattle.numbers.specs.Promise.{Rests, TakesLeast, ToBits, FromBits};

// How many of `len` bytes stand from `at` on. A test against it needs no `at + n`, which may wrap.
pub fn rest_from(len: usize, at: usize) -> usize
    ensures { Rests len at result }
{
    len.saturating_sub(at)
}

pub fn least(a: usize, b: usize) -> usize
    ensures { TakesLeast a b result }
{
    a.min(b)
}

// The 64 bits of `z` in two's complement, as an unsigned number.
pub fn to_bits(z: i64) -> u64
    ensures { ToBits z result }
{
    z.cast_unsigned()
}

// The signed number whose 64 bits are `n`.
pub fn from_bits(n: u64) -> i64
    ensures { FromBits n result }
{
    n.cast_signed()
}
