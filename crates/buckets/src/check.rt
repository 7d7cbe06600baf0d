ghost use Rattle.std.specs.Prelude.{◌≡◌, ℕ, ◌<◌, ◌≤◌, true, length, Decides};
ghost use Rattle.records.specs.Items.{records_in};
ghost use Rattle.records.specs.Records.{load};
ghost use Rattle.buckets.specs.Blocks.{bucket_bytes};
ghost use Rattle.buckets.specs.Buckets.{FitsAt, IsBucket};

use crate::builder::build;
use crate::prefix::Prefix;
use crate::sources::Whole;
use kinds::{Hashed, KeyKind};
use records::{bucket_count, bucket_key};

// Whether a block, built again from the records that it tells, is the same.
fn is_rebuilt(prefix: Prefix, block: &[u8]) -> bool
    ensures { Decides result ((load (records_in block.now) ≤ 504) × (block.now ≡ bucket_bytes prefix (records_in block.now))) }
{
    matches!(build(prefix, &Whole { block }), Some(again) if again[..] == block[..])
}

// Whether record n is a record of the kind under the prefix, and after the one before it.
fn fits_at<K: KeyKind>(prefix: Prefix, block: &[u8], n: usize) -> bool
    requires { n < length (records_in block.now) }
    ensures fits { result ≡ true → FitsAt K.KeyKind.kind prefix (records_in block.now) n }
    ensures all { ((m : ℕ) → m < length (records_in block.now) → FitsAt K.KeyKind.kind prefix (records_in block.now) m) → result ≡ true }
{
    let Some(key) = bucket_key(block, n) else {
        return false;
    };
    let hashed = Hashed::<K>::new(key);
    if !K::is_lawful(key) || !prefix.begins(hashed.hash) {
        return false;
    }
    n == 0 || matches!(bucket_key(block, n - 1), Some(before) if hashed.order_of(before).is_lt())
}

// Whether every record fits at its place.
fn all_fit<K: KeyKind>(prefix: Prefix, block: &[u8]) -> bool
    ensures { Decides result ((n : ℕ) → n < length (records_in block.now) → FitsAt K.KeyKind.kind prefix (records_in block.now) n) }
{
    (0..bucket_count(block)).all(|n| fits_at::<K>(prefix, block, n))
}

// Whether bytes are the bucket block of some lawful records under a prefix.
pub fn is_bucket<K: KeyKind>(prefix: Prefix, block: &[u8]) -> bool
    ensures { Decides result (IsBucket K.KeyKind.kind prefix block.now) }
{
    prefix.is_proper() && is_rebuilt(prefix, block) && all_fit::<K>(prefix, block)
}
