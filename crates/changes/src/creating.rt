ghost use Rattle.std.specs.Prelude.{◌≡◌, ℕ, ◌+◌, ◌≤◌, true, false, [], ◌∷◌, length, is_ok, Decides, MatchResult};
ghost use Rattle.kinds.specs.Kinds.{Kind};
ghost use Rattle.buckets.specs.Blocks.{bucket_bytes};
ghost use Rattle.index.specs.Stored.{prefix_at};
ghost use Rattle.changes.specs.Creating.{Creatable, Created};

use buckets::{Prefix, Source, Whole, build};
use device::Device;
use header::{Header, encode};
use index::Fault;

// The bucket block of no records.
fn empty_bucket() -> Result<[u8; 512], Fault>
    ensures { MatchResult result (λ b. b ≡ bucket_bytes (prefix_at 7 0) []) (λ _. ⊥) }
{
    build(Prefix { bits: 0, top: 0 }, &Whole { block: &[] }).ok_or(Fault::Broken)
}

// Makes an index of no records: its header in one block, and its one bucket in another. Where these
// are not two blocks of the device, or two writes are not allowed, nothing is written.
pub fn create<D: Device>(device: &mut D, head: u16, bucket: u16) -> Result<(), Fault>
    ensures served { Decides (is_ok result) (Creatable (D.Device.contents device.old) (D.Device.allowed device.old) head bucket) }
    ensures creates { is_ok result ≡ true → (kind : Kind) → Created kind (D.Device.contents device.old) (D.Device.contents device.new) head bucket }
    ensures refused { is_ok result ≡ false → (D.Device.contents device.new ≡ D.Device.contents device.old) × (D.Device.allowed device.new ≡ D.Device.allowed device.old) }
    ensures keeps { D.Device.kept device.old device.new }
    ensures costs { D.Device.allowed device.old ≤ D.Device.allowed device.new + 2 }
    ensures falls { D.Device.allowed device.new ≤ D.Device.allowed device.old }
{
    let count = device.count();
    if u32::from(head) >= count || u32::from(bucket) >= count || head == bucket {
        return Err(Fault::NoRoom);
    }
    if device.allowance() < 2 {
        return Err(Fault::NoRoom);
    }
    let empty = empty_bucket()?;
    let header = encode(&Header::single(bucket));
    let _ = device.write(u32::from(bucket), &empty);
    let _ = device.write(u32::from(head), &header);
    Ok(())
}
