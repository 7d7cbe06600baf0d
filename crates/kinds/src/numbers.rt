ghost use Rattle.std.specs.Prelude.{◌≡◌, ℕ, ◌^◌, ◌<◌};
ghost use Rattle.kinds.specs.Numbers.{number_of, spread_number, straight_number, numbers};
ghost use Rattle.std.proofs.Common.{rules};

use crate::kind::KeyKind;
use std::cmp::Ordering;

// How a number is hashed.
pub trait NumberHash {
    ghost hashed: { ℕ → ℕ };

    fn hash_number(value: u32) -> u32
        ensures { result ≡ hashed value };

    // A hash has 32 bits.
    ghost narrow: { (number : ℕ) → hashed number < 2 ^ 32 };
}

// Numbers whose hash spreads those that follow one another.
#[derive(Clone, Copy)]
pub struct RegisterNumbers;

// 2^32 divided by the golden ratio, and odd.
const SPREAD: u32 = 2_654_435_761;

impl NumberHash for RegisterNumbers {
    ghost hashed = { spread_number };

    ghost narrow = { Prim.search rules };

    fn hash_number(value: u32) -> u32 {
        SPREAD.wrapping_mul(value)
    }
}

// Numbers that are their own hash.
#[derive(Clone, Copy)]
pub struct StraightNumbers;

impl NumberHash for StraightNumbers {
    ghost hashed = { straight_number };

    ghost narrow = { Prim.search rules };

    fn hash_number(value: u32) -> u32 {
        value
    }
}

// The number of a key, and 0 for any other string.
fn number(key: &[u8]) -> u32
    ensures { result ≡ number_of key.now }
{
    match key {
        [a, b, c, d] => u32::from_be_bytes([*a, *b, *c, *d]),
        _ => 0,
    }
}

// Keys of four bytes, under either hash.
impl<H: NumberHash> KeyKind for H {
    ghost kind = { numbers H.hashed };

    ghost ordered = { Prim.search rules };

    ghost level = { Prim.search rules };

    ghost bounded = { Prim.search rules };

    fn is_lawful(key: &[u8]) -> bool {
        key.len() == 4
    }

    fn hash(key: &[u8]) -> u32 {
        H::hash_number(number(key))
    }

    fn compare(a: &[u8], b: &[u8]) -> Ordering {
        number(a).cmp(&number(b))
    }
}
