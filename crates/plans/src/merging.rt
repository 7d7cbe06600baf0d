ghost use Rattle.std.specs.Prelude.{◌≡◌, ℕ, ◌+◌, ◌-◌, ◌/◌, ◌^◌, ◌<◌, ◌≤◌, List, MatchResult, ◌≢◌};
ghost use Rattle.kinds.specs.Kinds.{Kind};
ghost use Rattle.index.specs.Stored.{room_at};
ghost use Rattle.plans.specs.Merging.{Under, GoesUp, JoinEnds, Merged};

use crate::merge::Merge;
use crate::numbers::Numbers;
use buckets::{Joined, build};
use device::Device;
use header::buddy;
use index::{Bucket, Fault, read_bucket};
use layout::Branch;

// The bucket block under a prefix, joined with the one beside it: the prefix of both, and the number of
// the other, where that is one bucket and the two are light together.
fn join<D: Device>(
    device: &D,
    header: &[u8],
    branch: Branch,
    block: &[u8],
) -> Result<Option<(Branch, Bucket)>, Fault>
    ensures up { GoesUp branch result }
    ensures ends { (kind : Kind) (head : ℕ) (old new : List (List ℕ)) → Under kind (D.Device.contents device.now) head header.now old new branch.slot branch.room block.now → JoinEnds kind header.now old new branch.slot branch.room result }
{
    let Some(above) = branch.up() else {
        return Ok(None);
    };
    // A slot of the prefix beside this one, under the one above.
    let other = buddy(branch.slot, branch.room);
    let beside = read_bucket(device, header, u32::from(other) << 25)?;
    if beside.block[1] != 7 - branch.room {
        return Ok(None);
    }
    // The records of the low half stand first.
    let is_low = (branch.slot >> branch.room) % 2 == 0;
    let joined = if is_low {
        Joined {
            first: block,
            second: &beside.block,
        }
    } else {
        Joined {
            first: &beside.block,
            second: block,
        }
    };
    let Some(block) = build(above.prefix(), &joined) else {
        return Ok(None);
    };
    let number = beside.number;
    Ok(Some((above, Bucket { number, block })))
}

// Merges a bucket with those beside it, as far as they are light together.
pub(crate) fn climb<D: Device>(
    device: &D,
    header: &[u8],
    start: Branch,
    bytes: [u8; 512],
) -> Result<Merge, Fault>
    ensures { (kind : Kind) (head : ℕ) (old new : List (List ℕ)) → Under kind (D.Device.contents device.now) head header.now old new start.slot start.room bytes → room_at kind old start.slot ≡ start.room → MatchResult result (Merged kind header.now old new start.slot) (λ _. ⊥) }
{
    let mut branch = start;
    let mut block = bytes;
    let mut given = Numbers::new();
    while let Some((above, beside)) = join(device, header, branch, &block)? {
        given.push(beside.number);
        block = beside.block;
        branch = above;
    }
    Ok(Merge {
        block,
        room: branch.room,
        given,
    })
}
