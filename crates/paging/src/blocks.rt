ghost use Rattle.std.specs.Prelude.{◌≡◌, ℕ, ◌+◌, ◌-◌, ◌*◌, ◌/◌, ◌^◌, ◌<◌, ◌≤◌, List, [], IfOk, Ok, MatchResult, slice_index, slice_index_or};
ghost use Rattle.kinds.specs.Kinds.{Kind};
ghost use Rattle.index.specs.Stored.{Stored, bucket_for};

use crate::refusal::NoIndex;
use device::Device;
use index::{read_block, read_bucket};

// The first byte of a header block, and of a bucket block.
const HEADER_TAG: u8 = 2;

const BUCKET_TAG: u8 = 3;

// The bits that a bucket's prefix has at most.
const MAX_BITS: u8 = 7;

// The header block of an index.
pub(crate) fn read_header<D: Device>(device: &D, head: u16) -> Result<[u8; 512], NoIndex>
    ensures read { IfOk result (λ header. header ≡ slice_index_or (D.Device.contents device.now) head []) }
    ensures told { (kind : Kind) (rs : List (List ℕ)) → Stored kind (D.Device.contents device.now) head rs → result ≡ Ok (slice_index_or (D.Device.contents device.now) head []) }
{
    let header = read_block(device, head)?;
    if header[0] != HEADER_TAG {
        return Err(NoIndex);
    }
    Ok(header)
}

// The bucket block of a slot, by the pointer in the header block.
pub(crate) fn bucket_of<D: Device>(
    device: &D,
    header: &[u8],
    slot: u32,
) -> Result<[u8; 512], NoIndex>
    requires { slot < 128 }
    ensures { (kind : Kind) (head : ℕ) (rs : List (List ℕ)) → Stored kind (D.Device.contents device.now) head rs → header.now ≡ slice_index_or (D.Device.contents device.now) head [] → result ≡ Ok (bucket_for kind rs slot) }
{
    Ok(read_bucket(device, header, slot << 25)?.block)
}

// How many of 7 bits the prefix of a bucket block leaves.
pub(crate) fn room_in(block: &[u8; 512]) -> Result<u8, NoIndex>
    ensures { MatchResult result (λ room. (slice_index block.now 0 ≡ 3) × (slice_index block.now 1 + room ≡ 7)) (λ _. slice_index block.now 0 ≡ 3 → 7 < slice_index block.now 1) }
{
    if block[0] != BUCKET_TAG {
        return Err(NoIndex);
    }
    MAX_BITS.checked_sub(block[1]).ok_or(NoIndex)
}

// The first slot of the next bucket.
pub(crate) fn next_slot(slot: u32, room: u8) -> u32
    requires { (slot < 128) × (room ≤ 7) }
    ensures value { result ≡ (slot / 2 ^ room + 1) * 2 ^ room }
    ensures further { slot < result }
{
    ((slot >> room) + 1) << room
}
