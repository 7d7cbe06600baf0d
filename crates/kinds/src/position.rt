ghost use Rattle.std.specs.Prelude.{◌≡◌};
ghost use Rattle.kinds.specs.Kinds.{position};

use crate::kind::KeyKind;
use std::cmp::Ordering;
use std::marker::PhantomData;

// A key and its hash, which is computed once however many keys it is compared with.
#[derive(Drop)]
pub struct Hashed<'a, K: KeyKind> {
    pub key: &'a [u8],
    pub hash: u32,
    pub kind: PhantomData<K>,
    ghost hashed: { hash ≡ K.KeyKind.kind.hash key.now },
}

impl<'a, K: KeyKind> Hashed<'a, K> {
    pub fn new(key: &'a [u8]) -> Hashed<'a, K>
        ensures { result.key.now ≡ key.now }
    {
        Hashed {
            key,
            hash: K::hash(key),
            kind: PhantomData,
        }
    }

    // How the position of another key compares with this one's: by hash, then by order.
    pub fn order_of(&self, other: &[u8]) -> Ordering
        ensures { result ≡ position K.KeyKind.kind other.now self.now.key.now }
    {
        K::hash(other)
            .cmp(&self.hash)
            .then_with(|| K::compare(other, self.key))
    }
}

// How the positions of two keys compare.
pub fn compare_positions<K: KeyKind>(a: &[u8], b: &[u8]) -> Ordering
    ensures { result ≡ position K.KeyKind.kind a.now b.now }
{
    Hashed::<K>::new(b).order_of(a)
}
