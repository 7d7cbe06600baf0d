ghost use Rattle.std.specs.Prelude.{◌≡◌, ℕ, ◌+◌, ◌≤◌, true, false, List, is_ok, Err};
ghost use Rattle.index.specs.declared.fault.Fault.TheVariants.{BadRecord};
ghost use Rattle.kinds.specs.Kinds.{Kind};
ghost use Rattle.index.specs.Stored.{Stored, block};
ghost use Rattle.plans.specs.Planned.{Planned, Spare};
ghost use Rattle.plans.specs.Editing.{is_lawful};
ghost use Rattle.changes.specs.Changing.{ChangeEnds, PutEnds, RemovalEnds};

use crate::change::Change;
use crate::making::make;
use device::Device;
use index::Fault;
use kinds::KeyKind;
use plans::{Plan, plan_put, plan_remove};

// Makes a planned change, and says what it did with blocks.
fn apply<D: Device>(device: &mut D, head: u16, plan: Plan, spare: &[u16]) -> Result<Change, Fault>
    ensures ends { (kind : Kind) (old new : List (List ℕ)) → Stored kind (D.Device.contents device.old) head old → Planned kind (block (D.Device.contents device.old) head) old new plan → Spare kind (D.Device.contents device.old) head old spare.now → ChangeEnds kind (D.Device.contents device.old) (D.Device.contents device.new) (D.Device.allowed device.old) head old new spare.now result }
    ensures refused { is_ok result ≡ false → (D.Device.contents device.new ≡ D.Device.contents device.old) × (D.Device.allowed device.new ≡ D.Device.allowed device.old) }
    ensures keeps { D.Device.kept device.old device.new }
    ensures costs { D.Device.allowed device.old ≤ D.Device.allowed device.new + 9 }
    ensures falls { D.Device.allowed device.new ≤ D.Device.allowed device.old }
{
    let taken = plan.taken();
    make(device, head, &plan, spare)?;
    Ok(Change {
        taken,
        given: plan.given,
    })
}

// Puts a record into an index, in the place of one with an alike key. A refusal changes nothing.
pub fn put<D: Device, K: KeyKind>(
    device: &mut D,
    head: u16,
    bytes: &[u8],
    spare: &[u16],
) -> Result<Change, Fault>
    ensures bad { is_lawful K.KeyKind.kind bytes.now ≡ false → result ≡ Err BadRecord }
    ensures puts { (rs : List (List ℕ)) → Stored K.KeyKind.kind (D.Device.contents device.old) head rs → Spare K.KeyKind.kind (D.Device.contents device.old) head rs spare.now → is_lawful K.KeyKind.kind bytes.now ≡ true → PutEnds K.KeyKind.kind (D.Device.contents device.old) (D.Device.contents device.new) (D.Device.allowed device.old) head rs bytes.now spare.now result }
    ensures refused { is_ok result ≡ false → (D.Device.contents device.new ≡ D.Device.contents device.old) × (D.Device.allowed device.new ≡ D.Device.allowed device.old) }
    ensures keeps { D.Device.kept device.old device.new }
    ensures costs { D.Device.allowed device.old ≤ D.Device.allowed device.new + 9 }
    ensures falls { D.Device.allowed device.new ≤ D.Device.allowed device.old }
{
    let plan = plan_put::<D, K>(device, head, bytes)?;
    apply(device, head, plan, spare)
}

// Removes the record with an alike key from an index, where there is one. A refusal changes nothing.
pub fn remove<D: Device, K: KeyKind>(
    device: &mut D,
    head: u16,
    key: &[u8],
    spare: &[u16],
) -> Result<Option<Change>, Fault>
    ensures bad { K.KeyKind.kind.lawful key.now ≡ false → result ≡ Err BadRecord }
    ensures removes { (rs : List (List ℕ)) → Stored K.KeyKind.kind (D.Device.contents device.old) head rs → Spare K.KeyKind.kind (D.Device.contents device.old) head rs spare.now → K.KeyKind.kind.lawful key.now ≡ true → RemovalEnds K.KeyKind.kind (D.Device.contents device.old) (D.Device.contents device.new) (D.Device.allowed device.old) head rs key.now spare.now result }
    ensures refused { is_ok result ≡ false → (D.Device.contents device.new ≡ D.Device.contents device.old) × (D.Device.allowed device.new ≡ D.Device.allowed device.old) }
    ensures keeps { D.Device.kept device.old device.new }
    ensures costs { D.Device.allowed device.old ≤ D.Device.allowed device.new + 9 }
    ensures falls { D.Device.allowed device.new ≤ D.Device.allowed device.old }
{
    let Some(plan) = plan_remove::<D, K>(device, head, key)? else {
        return Ok(None);
    };
    let change = apply(device, head, plan, spare)?;
    Ok(Some(change))
}
