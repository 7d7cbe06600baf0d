ghost use Rattle.std.specs.Prelude.{◌≡◌, ℕ, ◌/◌, ◌^◌, ◌<◌, true, false, List, [], length, drop, if◌then◌else◌, MatchOption, MatchResult, nat_eq, slice_index_or};
ghost use Rattle.records.specs.Items.{records_in};
ghost use Rattle.records.specs.Records.{is_record};
ghost use Rattle.records.specs.Searches.{Sorted};
ghost use Rattle.pages.specs.Gathered.{gathered};
ghost use Rattle.pages.specs.Pages.{following};
ghost use Rattle.pages.specs.Takes.{Took};
ghost use Rattle.index.specs.Stored.{Stored};
ghost use Rattle.paging.specs.Refusals.{is_bookmark};
ghost use Rattle.paging.specs.Unread.{Unreadable};

use crate::blocks::{bucket_of, next_slot, room_in};
use crate::refusal::NoIndex;
use device::Device;
use kinds::KeyKind;
use pages::PageBuilder;
use records::{bucket_count, bucket_record, read_record, search};

// The slots of a header: one for each 7 bits that a hash may begin with.
const SLOTS: u32 = 128;

// Record n of a bucket block, where it is one.
fn record_at(block: &[u8], n: usize) -> Option<&[u8]>
    requires { n < length (records_in block.now) }
    ensures { MatchOption result (is_record (slice_index_or (records_in block.now) n []) ≡ false) (λ item. item.now ≡ slice_index_or (records_in block.now) n []) }
{
    let item = bucket_record(block, n)?;
    read_record(item)?;
    Some(item)
}

// Takes the records of a bucket block from a place on, until one does not fit. The answer is whether all did: a full
// page is no error, since `page` would turn it back into an end mark that is false.
// A block hands its records out by number, so that this is a loop over numbers.
fn take_from(block: &[u8], from: usize, page: &mut PageBuilder) -> Result<bool, NoIndex>
    ensures size { page.new.size ≡ page.old.size }
    ensures took { MatchResult result (λ whole. Took page.old.size (gathered page.old) (drop from (records_in block.now)) (gathered page.new) whole) (λ _. Unreadable (records_in block.now)) }
{
    for n in from..bucket_count(block) {
        let record = record_at(block, n).ok_or(NoIndex)?;
        if page.push(record).is_err() {
            return Ok(false);
        }
    }
    Ok(true)
}

// How many records of a bucket block a bookmark leaves behind.
fn passed<K: KeyKind>(block: &[u8], bookmark: &[u8]) -> usize
    ensures { Sorted K.KeyKind.kind (records_in block.now) → is_bookmark K.KeyKind.kind bookmark.now ≡ true → drop result (records_in block.now) ≡ following K.KeyKind.kind bookmark.now (records_in block.now) }
{
    if bookmark.is_empty() {
        return 0;
    }
    match search::<K>(block, bookmark) {
        Ok(place) => place + 1,
        Err(place) => place,
    }
}

// The slot of a bookmark, and the first one for the empty one.
fn first_slot<K: KeyKind>(bookmark: &[u8]) -> u32
    ensures { result ≡ (if nat_eq (length bookmark.now) 0 then 0 else K.KeyKind.kind.hash bookmark.now / 2 ^ 25) }
{
    if bookmark.is_empty() {
        return 0;
    }
    K::hash(bookmark) >> 25
}

// Takes the records after a bookmark, bucket by bucket, until one does not fit. The answer is whether all did: the end
// mark of the page.
pub(crate) fn gather<D: Device, K: KeyKind>(
    device: &D,
    header: &[u8],
    bookmark: &[u8],
    page: &mut PageBuilder,
) -> Result<bool, NoIndex>
    ensures size { page.new.size ≡ page.old.size }
    ensures took { (head : ℕ) (rs : List (List ℕ)) → Stored K.KeyKind.kind (D.Device.contents device.now) head rs → header.now ≡ slice_index_or (D.Device.contents device.now) head [] → is_bookmark K.KeyKind.kind bookmark.now ≡ true → MatchResult result (λ whole. Took page.old.size (gathered page.old) (following K.KeyKind.kind bookmark.now rs) (gathered page.new) whole) (λ _. ⊥) }
{
    let mut slot = first_slot::<K>(bookmark);
    // No range of slots: each bucket that was read says where the next one begins.
    while slot < SLOTS {
        let block = bucket_of(device, header, slot)?;
        let room = room_in(&block)?;
        let from = passed::<K>(&block, bookmark);
        if !take_from(&block, from, page)? {
            return Ok(false);
        }
        slot = next_slot(slot, room);
    }
    Ok(true)
}
