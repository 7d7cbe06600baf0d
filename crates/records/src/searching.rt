ghost use Rattle.std.specs.Prelude.{◌≡◌, ◌<◌, ◌≤◌, true, [], length, IfOk, slice_index_or};
ghost use Rattle.std.specs.Ordering.{is_lt};
ghost use Rattle.std.specs.declared.cmp.Ordering.TheVariants.{Equal};
ghost use Rattle.kinds.specs.Kinds.{position};
ghost use Rattle.records.specs.Records.{is_record};
ghost use Rattle.records.specs.Items.{records_in};
ghost use Rattle.records.specs.Searches.{key_at, Sorted, Goes, PlacedAt, Finds};

use crate::items::{bucket_count, bucket_key};
use kinds::{Hashed, KeyKind};

// Whether record n has a key whose position is before the sought one's.
fn is_before<K: KeyKind>(block: &[u8], n: usize, sought: &Hashed<'_, K>) -> bool
    ensures { is_record (slice_index_or (records_in block.now) n []) ≡ true → result ≡ is_lt (position K.KeyKind.kind (key_at (records_in block.now) n) sought.now.key.now) }
{
    matches!(bucket_key(block, n), Some(found) if sought.order_of(found).is_lt())
}

// Where a key goes in a bucket block: how many records stand before it. The halving is written out, since the
// library halves slices alone, and the records of a block are none.
pub fn place_for<K: KeyKind>(block: &[u8], key: &[u8]) -> usize
    ensures within { result ≤ length (records_in block.now) }
    ensures place { Sorted K.KeyKind.kind (records_in block.now) → K.KeyKind.kind.lawful key.now ≡ true → Goes K.KeyKind.kind (records_in block.now) key.now result }
{
    let sought = Hashed::<K>::new(key);
    let mut low = 0;
    let mut high = bucket_count(block);
    while low < high {
        let middle = low.midpoint(high);
        if is_before(block, middle, &sought) {
            low = middle + 1;
        } else {
            high = middle;
        }
    }
    low
}

// The place of the record in a bucket block whose key is alike, or where the key goes.
pub fn search<K: KeyKind>(block: &[u8], key: &[u8]) -> Result<usize, usize>
    ensures found { IfOk result (λ n. (n < length (records_in block.now)) × (is_record (slice_index_or (records_in block.now) n []) ≡ true) × (K.KeyKind.kind.order (key_at (records_in block.now) n) key.now ≡ Equal)) }
    ensures placed { Sorted K.KeyKind.kind (records_in block.now) → K.KeyKind.kind.lawful key.now ≡ true → PlacedAt K.KeyKind.kind (records_in block.now) key.now result }
{
    let place = place_for::<K>(block, key);
    match bucket_key(block, place) {
        Some(found) if K::compare(found, key).is_eq() => Ok(place),
        _ => Err(place),
    }
}

// The place of the record in a bucket block whose key is alike, or nothing. A key that is not lawful is found nowhere.
pub fn find<K: KeyKind>(block: &[u8], key: &[u8]) -> Option<usize>
    ensures { Finds K.KeyKind.kind (records_in block.now) key.now result }
{
    if !K::is_lawful(key) {
        return None;
    }
    search::<K>(block, key).ok()
}
