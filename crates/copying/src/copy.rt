ghost use Rattle.std.specs.Prelude.{◌≡◌, ℕ, ◌+◌, ◌<◌, ◌≤◌, length, MatchResult, slice_index};
ghost use Rattle.copying.specs.Copies.{differs, differing, laid, CopyEnds};

use crate::error::CopyError;
use device::{BLOCK_SIZE, Device};
use std::alloc::{AllocError, Global};

// Whether a block of both devices is another in the target than in the source.
fn is_other<S: Device, T: Device>(source: &S, target: &T, block: u32) -> bool
    requires { (block < length (S.Device.contents source.now)) × (block < length (T.Device.contents target.now)) }
    ensures { result ≡ differs (S.Device.contents source.now) (T.Device.contents target.now) block }
{
    let mut wanted = [0; BLOCK_SIZE];
    let mut held = [0; BLOCK_SIZE];
    let _ = source.read(block, &mut wanted);
    let _ = target.read(block, &mut held);
    wanted != held
}

// The blocks of the source that differ in the target. A `for`, since `collect` does not say that it
// finds memory where nothing differs.
fn find_differing<S: Device, T: Device>(
    heap: Global,
    source: &S,
    target: &T,
) -> Result<Vec<u32>, AllocError>
    requires { length (S.Device.contents source.now) ≤ length (T.Device.contents target.now) }
    ensures { MatchResult result (λ v. v.items ≡ differing (S.Device.contents source.now) (T.Device.contents target.now) (length (S.Device.contents source.now))) (λ _. 0 < length (differing (S.Device.contents source.now) (T.Device.contents target.now) (length (S.Device.contents source.now)))) }
{
    let mut found = Vec::new(heap);
    for block in 0..source.count() {
        if is_other(source, target, block) {
            found.push(block)?;
        }
    }
    Ok(found)
}

// Writes these blocks of the source onto the target.
fn write_all<S: Device, T: Device>(source: &S, target: &mut T, blocks: &[u32])
    requires known { (i : ℕ) → i < length blocks.now → slice_index blocks.now i < length (S.Device.contents source.now) }
    requires fits { length (S.Device.contents source.now) ≤ length (T.Device.contents target.old) }
    requires allowed { length blocks.now ≤ T.Device.allowed target.old }
    ensures sets { T.Device.contents target.new ≡ laid (S.Device.contents source.now) (T.Device.contents target.old) blocks.now }
    ensures keeps { T.Device.kept target.old target.new }
    ensures costs { T.Device.allowed target.old ≤ T.Device.allowed target.new + length blocks.now }
    ensures falls { T.Device.allowed target.new ≤ T.Device.allowed target.old }
{
    let mut buffer = [0; BLOCK_SIZE];
    for block in blocks {
        let _ = source.read(*block, &mut buffer);
        let _ = target.write(*block, &buffer);
    }
}

// Makes every block of the source the same block of the target, and tells which were written.
pub fn copy_blocks<S: Device, T: Device>(
    heap: Global,
    source: &S,
    target: &mut T,
) -> Result<Vec<u32>, CopyError>
    ensures ends { CopyEnds (S.Device.contents source.now) (T.Device.contents target.old) (T.Device.allowed target.old) (T.Device.contents target.new) (T.Device.allowed target.new) result }
    ensures keeps { T.Device.kept target.old target.new }
{
    if target.count() < source.count() {
        return Err(CopyError::TooSmall);
    }
    let blocks = find_differing(heap, source, target)?;
    if (target.allowance() as usize) < blocks.len() {
        return Err(CopyError::Worn);
    }
    write_all(source, target, &blocks);
    Ok(blocks)
}
