// A device over bytes: block b is the bytes 512 * b to 512 * b + 511.
#![tactic(auto)]

ghost use Rattle.std.specs.Prelude.{◌≡◌, ◌+◌, ◌*◌, ◌<◌, ◌≤◌, ◌&&◌, length, is_ok, IfOk, ◌==◌, nat_lt};
ghost use Rattle.image.specs.Blocks.{whole_blocks, image_blocks, SameBeyond};
ghost use Rattle.image.specs.Lawful.{image_laws};

use device::{BLOCK_SIZE, Bytes, Device, Refused};

// A block number has two bytes wherever it is stored.
const MAX_COUNT: usize = 65_535;

// An image in bytes of its own, or in bytes that are lent, as `Image<&mut [u8]>`.
#[derive(Drop)]
pub struct Image<B> {
    bytes: B,
}

// An image in a vector.
pub type ImageBuf = Image<Vec<u8>>;

// An image in a slice that is lent. Its `new` asks for a `&mut`, so that a variable is lent and serves again afterwards.
pub type ImageMut<'a> = Image<&'a mut [u8]>;

impl<B: Bytes> Image<B> {
    pub fn new(bytes: B) -> Image<B>
        ensures { result.bytes ≡ bytes }
    {
        Image { bytes }
    }

    // The bytes again.
    pub fn into_bytes(self) -> B
        ensures { result ≡ self.bytes }
    {
        let Image { bytes } = self;
        bytes
    }

    // Where a block starts, if the image has it and `len` bytes fill it.
    fn place(&self, block: u32, len: usize) -> Result<usize, Refused>
        ensures served { is_ok result ≡ (nat_lt block (length (image_blocks (B.bytes self.now.bytes))) && len == 512) }
        ensures within { IfOk result (λ start. (block < whole_blocks (B.bytes self.now.bytes)) × (start ≡ 512 * block) × (start + 512 ≤ length (B.bytes self.now.bytes)) × (len ≡ 512)) }
    {
        if block >= self.count() || len != BLOCK_SIZE {
            return Err(Refused);
        }
        Ok(BLOCK_SIZE * block as usize)
    }
}

impl<B: Bytes> Device for Image<B> {
    ghost contents = { λ s. image_blocks (B.bytes s.bytes) };

    ghost allowed = { λ _. 4294967295 };

    ghost kept = { λ s t. B.kept s.bytes t.bytes × SameBeyond (B.bytes s.bytes) (B.bytes t.bytes) };

    ghost laws = { image_laws (λ s. s.bytes) B.bytes B.laws };

    fn count(&self) -> u32 {
        (self.bytes.as_slice().len() / BLOCK_SIZE).min(MAX_COUNT) as u32
    }

    fn allowance(&self) -> u32 {
        u32::MAX
    }

    fn read(&self, block: u32, buffer: &mut [u8]) -> Result<(), Refused> {
        let start = self.place(block, buffer.len())?;
        buffer.copy_from_slice(&self.bytes.as_slice()[start..start + BLOCK_SIZE]);
        Ok(())
    }

    fn write(&mut self, block: u32, source: &[u8]) -> Result<(), Refused> {
        let start = self.place(block, source.len())?;
        self.bytes.overwrite(start, source)
    }
}
