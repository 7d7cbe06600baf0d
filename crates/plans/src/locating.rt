ghost use Rattle.std.specs.Prelude.{◌≡◌, ℕ, ◌+◌, ◌/◌, ◌^◌, ◌≤◌, true, List, MatchOption, MatchResult, slice_index};
ghost use Rattle.index.specs.Stored.{Stored};
ghost use Rattle.plans.specs.Locating.{LocatedIn};

use crate::located::Located;
use device::Device;
use header::count_in;
use index::{Bucket, Fault, read_block, read_bucket};
use kinds::KeyKind;
use layout::Branch;
use records::search;

// The prefix of a hash that a bucket block has.
fn branch_in(block: &[u8; 512], hash: u32) -> Option<Branch>
    ensures { MatchOption result (slice_index block.now 1 ≤ 7 → ⊥) (λ b. (b.slot ≡ hash / 2 ^ 25) × (b.room + slice_index block.now 1 ≡ 7)) }
{
    let room = 7u8.checked_sub(block[1])?;
    Branch::new((hash >> 25) as u8, room)
}

// Finds the bucket of a lawful key, and the key's place in it.
pub(crate) fn locate<D: Device, K: KeyKind>(
    device: &D,
    head: u16,
    key: &[u8],
) -> Result<Located, Fault>
    requires { K.KeyKind.kind.lawful key.now ≡ true }
    ensures { (rs : List (List ℕ)) → Stored K.KeyKind.kind (D.Device.contents device.now) head rs → MatchResult result (LocatedIn K.KeyKind.kind (D.Device.contents device.now) head rs key.now) (λ _. ⊥) }
{
    let header = read_block(device, head)?;
    let count = count_in(&header).ok_or(Fault::Broken)?;
    let hash = K::hash(key);
    let Bucket { number, block } = read_bucket(device, &header, hash)?;
    let branch = branch_in(&block, hash).ok_or(Fault::Broken)?;
    let place = search::<K>(&block, key);
    Ok(Located {
        header,
        count,
        branch,
        number,
        block,
        place,
    })
}
