// Block devices: a count of blocks, 512 bytes in each, and an allowance of further writes; and the
// bytes that a device may lie in.
#![tactic(auto)]

ghost use Rattle.std.specs.Prelude.{◌≡◌, ℕ, ◌+◌, ◌≤◌, List, [], length, is_ok, if◌then◌else◌, slice_index_or, slice_set};
ghost use Rattle.device.specs.Access.{readable, writable};
ghost use Rattle.device.specs.Laws.{Laws};

mod bytes;
mod lent;
mod refused;

pub use bytes::Bytes;
pub use refused::Refused;

// The bytes of a block.
pub const BLOCK_SIZE: usize = 512;

pub trait Device {
    // The blocks, each a list of 512 bytes.
    ghost contents: { Self → List (List ℕ) };

    // How many further writes are allowed.
    ghost allowed: { Self → ℕ };

    // What no call changes: whose bytes the device lies in, and what lies outside its blocks.
    ghost kept: { Self → Self → Type 0 };

    ghost laws: { Laws contents allowed kept };

    fn count(&self) -> u32
        ensures { result ≡ length (contents self.now) };

    fn allowance(&self) -> u32
        ensures { result ≡ allowed self.now };

    // Copies a block into `buffer`; a refusal leaves the buffer.
    fn read(&self, block: u32, buffer: &mut [u8]) -> Result<(), Refused>
        ensures served { is_ok result ≡ readable (contents self.now) block buffer.old }
        ensures after { buffer.new ≡ (if is_ok result then slice_index_or (contents self.now) block [] else buffer.old) };

    // Sets a block to `source`; a refusal changes nothing.
    fn write(&mut self, block: u32, source: &[u8]) -> Result<(), Refused>
        ensures served { is_ok result ≡ writable (contents self.old) block source.now (allowed self.old) }
        ensures sets { contents self.new ≡ (if is_ok result then slice_set (contents self.old) block source.now else contents self.old) }
        ensures keeps { kept self.old self.new }
        ensures costs { allowed self.old ≤ allowed self.new + (if is_ok result then 1 else 0) }
        ensures falls { allowed self.new ≤ allowed self.old };
}
