ghost use Rattle.std.specs.Prelude.{◌≡◌, ℕ, ◌+◌, ◌-◌, ◌<◌, ◌≤◌, false, List, ◌∷◌, length, take, is_ok, Decides, MatchOption, slice_index};
ghost use Rattle.arrayvec.specs.ArrayVec.{array_vec_len};
ghost use Rattle.kinds.specs.Kinds.{Kind};
ghost use Rattle.index.specs.Stored.{Stored, block};
ghost use Rattle.plans.specs.Planned.{Planned, Spare};
ghost use Rattle.changes.specs.Making.{written, Ready, Makes};

use crate::heading::head_after;
use arrayvec::ArrayVec;
use device::Device;
use index::Fault;
use plans::Plan;

// The blocks of a plan's buckets: the one of the old bucket, then spare ones, unless these are too few. A plan of no
// buckets has none.
fn numbers_for(plan: &Plan, spare: &[u16]) -> Option<ArrayVec<u16, 8>>
    ensures { MatchOption result (length spare.now < array_vec_len plan.now.laid - 1) (λ n. (array_vec_len plan.now.laid - 1 ≤ length spare.now) × (n.items ≡ take (array_vec_len plan.now.laid) (plan.now.number ∷ take (array_vec_len plan.now.laid - 1) spare.now))) }
{
    let taken = spare.get(..plan.taken())?;
    let mut numbers = ArrayVec::new();
    numbers.push(plan.number);
    numbers.try_extend_from_slice(taken).ok()?;
    numbers.truncate(plan.laid.len());
    Some(numbers)
}

// Whether a device has the header block and these, and allows as many writes.
fn is_ready<D: Device>(device: &D, head: u16, numbers: &[u16]) -> bool
    ensures { Decides result (Ready (D.Device.contents device.now) (D.Device.allowed device.now) head numbers.now) }
{
    let count = device.count();
    numbers.len() < device.allowance() as usize
        && u32::from(head) < count
        && numbers.iter().all(|number| u32::from(*number) < count)
}

// Writes buckets to blocks.
fn write_buckets<D: Device>(device: &mut D, numbers: &[u16], blocks: &[[u8; 512]])
    requires { (length blocks.now ≤ D.Device.allowed device.old) × ((i : ℕ) → i < length numbers.now → slice_index numbers.now i < length (D.Device.contents device.old)) }
    ensures sets { D.Device.contents device.new ≡ written (D.Device.contents device.old) numbers.now blocks.now }
    ensures keeps { D.Device.kept device.old device.new }
    ensures costs { D.Device.allowed device.old ≤ D.Device.allowed device.new + length blocks.now }
    ensures falls { D.Device.allowed device.new ≤ D.Device.allowed device.old }
{
    for (number, block) in numbers.iter().zip(blocks) {
        let _ = device.write(u32::from(*number), block);
    }
}

// Makes a planned change, with spare blocks for the buckets that it adds: it takes as many of the
// first ones as the plan says. Where they or the allowance do not suffice, nothing is written.
pub fn make<D: Device>(device: &mut D, head: u16, plan: &Plan, spare: &[u16]) -> Result<(), Fault>
    ensures makes { (kind : Kind) (old new : List (List ℕ)) → Stored kind (D.Device.contents device.old) head old → Planned kind (block (D.Device.contents device.old) head) old new plan.now → Spare kind (D.Device.contents device.old) head old spare.now → Makes kind (D.Device.contents device.old) (D.Device.contents device.new) (D.Device.allowed device.old) head old new plan.now spare.now result }
    ensures refused { is_ok result ≡ false → (D.Device.contents device.new ≡ D.Device.contents device.old) × (D.Device.allowed device.new ≡ D.Device.allowed device.old) }
    ensures keeps { D.Device.kept device.old device.new }
    ensures costs { D.Device.allowed device.old ≤ D.Device.allowed device.new + (array_vec_len plan.now.laid + 1) }
    ensures falls { D.Device.allowed device.new ≤ D.Device.allowed device.old }
{
    let numbers = numbers_for(plan, spare).ok_or(Fault::NoRoom)?;
    let numbers = numbers.as_slice();
    if !is_ready(device, head, numbers) {
        return Err(Fault::NoRoom);
    }
    let header = head_after(plan, numbers).ok_or(Fault::Broken)?;
    write_buckets(device, numbers, plan.laid.as_slice());
    if header != plan.header {
        let _ = device.write(u32::from(head), &header);
    }
    Ok(())
}
