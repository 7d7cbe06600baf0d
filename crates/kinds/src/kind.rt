ghost use Rattle.std.specs.Prelude.{◌≡◌};
ghost use Rattle.kinds.specs.Kinds.{Kind, TotalOrder, AlikeHash, Bounded};

use std::cmp::Ordering;

pub trait KeyKind {
    // The lawful keys, their hash and their order.
    ghost kind: { Kind };

    fn is_lawful(key: &[u8]) -> bool
        ensures { result ≡ kind.lawful key.now };

    fn hash(key: &[u8]) -> u32
        ensures { result ≡ kind.hash key.now };

    fn compare(a: &[u8], b: &[u8]) -> Ordering
        ensures { result ≡ kind.order a.now b.now };

    // The order is total over the lawful keys.
    ghost ordered: { TotalOrder kind.lawful kind.order };

    // Two lawful keys that are alike have the same hash.
    ghost level: { AlikeHash kind };

    // A lawful key has 1 to 40 bytes, and its hash 32 bits.
    ghost bounded: { Bounded kind };
}
