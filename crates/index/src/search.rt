ghost use Rattle.std.specs.Prelude.{◌≡◌, ℕ, true, false, List, Err};
ghost use Rattle.index.specs.declared.fault.Fault.TheVariants.{BadRecord};
ghost use Rattle.index.specs.Stored.{Stored};
ghost use Rattle.index.specs.Searching.{Finds};

use crate::blocks::{read_block, read_bucket};
use crate::fault::Fault;
use crate::found::Found;
use device::Device;
use kinds::KeyKind;

// The record with an alike key, in its bucket block. It reads the header block and one bucket block.
pub fn find<D: Device, K: KeyKind>(
    device: &D,
    head: u16,
    key: &[u8],
) -> Result<Option<Found>, Fault>
    ensures bad { K.KeyKind.kind.lawful key.now ≡ false → result ≡ Err BadRecord }
    ensures finds { (rs : List (List ℕ)) → Stored K.KeyKind.kind (D.Device.contents device.now) head rs → K.KeyKind.kind.lawful key.now ≡ true → Finds K.KeyKind.kind rs key.now result }
{
    if !K::is_lawful(key) {
        return Err(Fault::BadRecord);
    }
    let header = read_block(device, head)?;
    let bucket = read_bucket(device, &header, K::hash(key))?;
    let found = records::find::<K>(&bucket.block, key).map(|place| Found {
        block: bucket.block,
        place,
    });
    Ok(found)
}
