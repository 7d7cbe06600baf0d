ghost use Rattle.std.specs.Prelude.{◌≡◌, ℕ, ◌<◌, ◌≤◌, [], length, Some, None, MatchResult, ◌≢◌, slice_index_or};
ghost use Rattle.header.specs.Headers.{pointer_in};
ghost use Rattle.index.specs.declared.fault.Fault.TheVariants.{Broken};
ghost use Rattle.index.specs.Stored.{BucketIn};

use crate::fault::Fault;
use device::{BLOCK_SIZE, Device};
use header::pointer_for;

// A block of a device.
pub fn read_block<D: Device>(device: &D, number: u16) -> Result<[u8; 512], Fault>
    ensures { MatchResult result (λ bytes. (number < length (D.Device.contents device.now)) × (bytes ≡ slice_index_or (D.Device.contents device.now) number [])) (λ e. (e ≡ Broken) × (length (D.Device.contents device.now) ≤ number)) }
{
    let mut bytes = [0; BLOCK_SIZE];
    device.read(u32::from(number), &mut bytes)?;
    Ok(bytes)
}

// A bucket block and its number.
#[derive(Clone, Copy)]
pub struct Bucket {
    pub number: u16,
    pub block: [u8; 512],
}

// The bucket that a header block names for a hash.
pub fn read_bucket<D: Device>(device: &D, header: &[u8], hash: u32) -> Result<Bucket, Fault>
    ensures { MatchResult result (λ b. BucketIn (D.Device.contents device.now) header.now hash b.number b.block) (λ e. (e ≡ Broken) × ((n : ℕ) → n < length (D.Device.contents device.now) → pointer_in header.now hash ≢ Some n)) }
{
    let number = pointer_for(header, hash).ok_or(Fault::Broken)?;
    let block = read_block(device, number)?;
    Ok(Bucket { number, block })
}
