ghost use Rattle.std.specs.Prelude.{◌≡◌, ℕ, ◌+◌, ◌<◌, ◌≤◌, true, false, [], length, take, if◌then◌else◌, Some, None, MatchOption, nat_le, slice_index_or};
ghost use Rattle.std.specs.Option.{option_map};
ghost use Rattle.records.specs.Records.{is_record};
ghost use Rattle.records.specs.Searches.{key_at};
ghost use Rattle.records.specs.Items.{item_at, bucket_item, page_item, records_in};

use crate::record::read_record;
use words::u16_at;

// The bytes before the pairs of a bucket block, and of a page.
pub const BUCKET_HEAD: usize = 8;

pub const PAGE_HEAD: usize = 4;

// The bytes of a record's pair, its offset and its length.
pub const PAIR: usize = 4;

// The first `len` bytes of a part that starts inside a block or page.
fn front(part: &[u8], len: usize) -> Option<&[u8]>
    ensures { option_map (λ x. x.now) result ≡ (if nat_le len (length part.now) then Some (take len part.now) else None) }
{
    part.get(..len)
}

// Record n of bytes that have the count at `count` and the pairs from `pairs` on.
#[tactic(auto, unfolding(crate::specs::Items::item_at))]
fn item(bytes: &[u8], count: usize, pairs: usize, n: usize) -> Option<&[u8]>
    requires { (pairs ≤ 8) × (count + 2 ≤ pairs) }
    ensures { option_map (λ x. x.now) result ≡ item_at count pairs bytes.now n }
{
    if n >= usize::from(u16_at(bytes, count)?) {
        return None;
    }
    let pair = pairs + PAIR * n;
    let offset = u16_at(bytes, pair)?;
    let len = u16_at(bytes, pair + 2)?;
    let part = bytes.get(usize::from(offset)..)?;
    front(part, usize::from(len))
}

// Record n of a bucket block. A name for each of the two layouts; the work is that of `item`.
pub fn bucket_record(block: &[u8], n: usize) -> Option<&[u8]>
    ensures { option_map (λ x. x.now) result ≡ bucket_item block.now n }
{
    item(block, 2, BUCKET_HEAD, n)
}

// Record n of a page.
pub fn page_record(page: &[u8], n: usize) -> Option<&[u8]>
    ensures { option_map (λ x. x.now) result ≡ page_item page.now n }
{
    item(page, 0, PAGE_HEAD, n)
}

// How many records a bucket block counts.
pub fn bucket_count(block: &[u8]) -> usize
    ensures value { result ≡ length (records_in block.now) }
    ensures bound { result < 65536 }
{
    u16_at(block, 2).map_or(0, usize::from)
}

// The key of record n of a bucket block, where that is a record.
#[tactic(auto, using(crate::proofs::Itemized::record_is))]
pub fn bucket_key(block: &[u8], n: usize) -> Option<&[u8]>
    ensures { MatchOption result (is_record (slice_index_or (records_in block.now) n []) ≡ false) (λ key. (n < length (records_in block.now)) × (is_record (slice_index_or (records_in block.now) n []) ≡ true) × (key.now ≡ key_at (records_in block.now) n)) }
{
    let record = read_record(bucket_record(block, n)?)?;
    Some(record.key)
}
