ghost use Rattle.carry.specs.Carries.{CarryEnds};

use crate::carried::Carried;
use append_log::LogBuf;
use copying::{CopyError, copy_blocks};
use image::ImageBuf;
use std::alloc::Global;

// Carries the volume of a log onto an image, through the contracts of devices alone.
pub fn carry(heap: Global, log: &LogBuf, mut image: ImageBuf) -> Result<Carried, CopyError>
    ensures { CarryEnds log.now.bytes.items image.bytes.items result }
{
    let written = copy_blocks(heap, log, &mut image)?;
    Ok(Carried { image, written })
}
