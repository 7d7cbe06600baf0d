ghost use Rattle.std.specs.Prelude.{◌≡◌, ℕ, ◌+◌, ◌/◌, ◌^◌, ◌<◌, ◌≤◌, true, false, List, length, Err, MatchResult};
ghost use Rattle.std.specs.List.{remove};
ghost use Rattle.kinds.specs.Kinds.{Kind, Bounded};
ghost use Rattle.records.specs.Items.{records_in};
ghost use Rattle.records.specs.Records.{is_record, key_of, load};
ghost use Rattle.index.specs.declared.fault.Fault.TheVariants.{BadRecord};
ghost use Rattle.index.specs.Stored.{Stored, block, bucket_at};
ghost use Rattle.plans.specs.Locating.{LocatedIn};
ghost use Rattle.plans.specs.Planned.{Planned};
ghost use Rattle.plans.specs.Editing.{Cleared, Relieved, is_lawful, Edited, PutPlanned, RemovalPlanned};

use crate::located::Located;
use crate::locating::locate;
use crate::merging::climb;
use crate::numbers::Numbers;
use crate::plan::Plan;
use buckets::{Inserted, Removed, build};
use device::Device;
use index::Fault;
use kinds::KeyKind;
use layout::{Branch, Buckets, lay_out};
use records::read_record;

// The plan for a bucket that stays light: it is merged with those beside it.
fn plan_light<D: Device>(
    device: &D,
    at: &Located,
    bytes: [u8; 512],
    count: u32,
) -> Result<Plan, Fault>
    ensures { (kind : Kind) (head : ℕ) (old new changed : List (List ℕ)) → Edited kind (D.Device.contents device.now) head old new at.now changed count → Bounded kind → load changed ≤ 504 → bytes ≡ bucket_at kind new at.now.branch.room (at.now.branch.slot / 2 ^ at.now.branch.room) → MatchResult result (Planned kind (block (D.Device.contents device.now) head) old new) (λ _. ⊥) }
{
    let merge = climb(device, &at.header, at.branch, bytes)?;
    let mut laid = Buckets::new();
    laid.push(merge.block);
    Ok(Plan {
        header: at.header,
        slot: at.branch.slot,
        room: merge.room,
        start: at.branch.room,
        number: at.number,
        given: merge.given,
        laid,
        count,
    })
}

// The bucket's block without the record at a place.
fn without(at: &Located, place: usize) -> Result<[u8; 512], Fault>
    ensures { load (records_in at.now.block) ≤ 504 → MatchResult result (Relieved at.now (remove (records_in at.now.block) place)) (λ _. ⊥) }
{
    let source = Removed {
        block: &at.block,
        place,
    };
    build(at.branch.prefix(), &source).ok_or(Fault::Broken)
}

// The bucket's block without the record that a put replaces, if there is one, and the place of the
// one that is put.
fn clear(at: &Located) -> Result<([u8; 512], usize), Fault>
    ensures { load (records_in at.now.block) ≤ 504 → MatchResult result (λ r. Cleared at.now.place (records_in at.now.block) (records_in r.0) r.1) (λ _. ⊥) }
{
    match at.place {
        Ok(place) => Ok((without(at, place)?, place)),
        Err(place) => Ok((at.block, place)),
    }
}

// How many records there are after a put.
fn count_after(at: &Located) -> u32
    ensures { at.now.count < 4294967295 → MatchResult at.now.place (λ _. result ≡ at.now.count) (λ _. result ≡ at.now.count + 1) }
{
    match at.place {
        Ok(_) => at.count,
        Err(_) => at.count.saturating_add(1),
    }
}

// The plan for a put where the key's place is known.
fn plan_put_at<D: Device, K: KeyKind>(device: &D, at: &Located, bytes: &[u8]) -> Result<Plan, Fault>
    ensures { (head : ℕ) (rs : List (List ℕ)) → Stored K.KeyKind.kind (D.Device.contents device.now) head rs → is_record bytes.now ≡ true → K.KeyKind.kind.lawful (key_of bytes.now) ≡ true → LocatedIn K.KeyKind.kind (D.Device.contents device.now) head rs (key_of bytes.now) at.now → PutPlanned K.KeyKind.kind (block (D.Device.contents device.now) head) rs bytes.now result }
{
    let (base, place) = clear(at)?;
    let count = count_after(at);
    let source = Inserted {
        block: &base,
        place,
        record: bytes,
    };
    if let Some(block) = build(at.branch.prefix(), &source) {
        return plan_light(device, at, block, count);
    }
    let Branch { slot, room } = at.branch;
    let laid = lay_out::<K, Inserted<'_, '_>>(&source, slot, room).ok_or(Fault::Full)?;
    Ok(Plan {
        header: at.header,
        slot,
        room,
        start: room,
        number: at.number,
        given: Numbers::new(),
        laid,
        count,
    })
}

// The plan for putting a record: reads only. It refuses what is not a lawful record, and a record
// with which the index cannot be held.
pub fn plan_put<D: Device, K: KeyKind>(device: &D, head: u16, bytes: &[u8]) -> Result<Plan, Fault>
    ensures bad { is_lawful K.KeyKind.kind bytes.now ≡ false → result ≡ Err BadRecord }
    ensures plans { (rs : List (List ℕ)) → Stored K.KeyKind.kind (D.Device.contents device.now) head rs → is_lawful K.KeyKind.kind bytes.now ≡ true → PutPlanned K.KeyKind.kind (block (D.Device.contents device.now) head) rs bytes.now result }
{
    let parts = read_record(bytes).ok_or(Fault::BadRecord)?;
    if !K::is_lawful(parts.key) {
        return Err(Fault::BadRecord);
    }
    let at = locate::<D, K>(device, head, parts.key)?;
    plan_put_at::<D, K>(device, &at, bytes)
}

// The plan for removing a key: reads only, and nothing where the key is not there.
pub fn plan_remove<D: Device, K: KeyKind>(
    device: &D,
    head: u16,
    key: &[u8],
) -> Result<Option<Plan>, Fault>
    ensures bad { K.KeyKind.kind.lawful key.now ≡ false → result ≡ Err BadRecord }
    ensures plans { (rs : List (List ℕ)) → Stored K.KeyKind.kind (D.Device.contents device.now) head rs → K.KeyKind.kind.lawful key.now ≡ true → RemovalPlanned K.KeyKind.kind (block (D.Device.contents device.now) head) rs key.now result }
{
    if !K::is_lawful(key) {
        return Err(Fault::BadRecord);
    }
    let at = locate::<D, K>(device, head, key)?;
    let Ok(place) = at.place else {
        return Ok(None);
    };
    let block = without(&at, place)?;
    let plan = plan_light(device, &at, block, at.count.saturating_sub(1))?;
    Ok(Some(plan))
}
