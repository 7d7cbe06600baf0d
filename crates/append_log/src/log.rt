ghost use Rattle.std.specs.Prelude.{◌≡◌, ◌+◌, ◌<◌, ◌≤◌, ◌&&◌, length, Some, is_ok, IfOk, if◌then◌else◌, ◌==◌, nat_lt};
ghost use Rattle.append_log.specs.Records.{head_of, log_blocks, log_room, OnlyAppends, AppendsOne, takes_write, written_blocks};
ghost use Rattle.append_log.specs.Lawful.{log_laws};

use crate::head::Head;
use crate::records;
use crate::records::{HEAD_SIZE, RECORD_SIZE};
use device::{BLOCK_SIZE, Bytes, Device, Refused};

// A log in bytes of its own, or in bytes that are lent, as `Log<&mut [u8]>`, with what their check found.
#[derive(Drop)]
pub struct Log<B: Bytes> {
    bytes: B,
    head: Option<Head>,
    ghost checked: { head ≡ head_of (B.bytes bytes) },
}

// A log in a vector.
pub type LogBuf = Log<Vec<u8>>;

// A log in a slice that is lent. Its `new` asks for a `&mut`, so that a variable is lent and serves again afterwards.
pub type LogMut<'a> = Log<&'a mut [u8]>;

impl<B: Bytes> Log<B> {
    // Checks every used record, once.
    pub fn new(bytes: B) -> Log<B>
        ensures { result.bytes ≡ bytes }
    {
        let head = records::check(bytes.as_slice());
        Log { bytes, head }
    }

    // The head, where the bytes are a valid log.
    pub fn head(&self) -> Option<Head>
        ensures { result ≡ head_of (B.bytes self.now.bytes) }
    {
        self.head
    }

    // The bytes again.
    pub fn into_bytes(self) -> B
        ensures { result ≡ self.bytes }
    {
        let Log { bytes, head: _ } = self;
        bytes
    }

    // The head, if the log has this block and `len` bytes fill it.
    fn head_for(&self, block: u32, len: usize) -> Result<Head, Refused>
        ensures served { is_ok result ≡ (nat_lt block (length (log_blocks (B.bytes self.now.bytes))) && len == 512) }
        ensures head { IfOk result (λ head. (Some head ≡ head_of (B.bytes self.now.bytes)) × (block < head.count) × (len ≡ 512)) }
    {
        let head = self.head.ok_or(Refused)?;
        if block >= u32::from(head.count) || len != BLOCK_SIZE {
            return Err(Refused);
        }
        Ok(head)
    }

    // How many more records there is room for.
    fn room(&self) -> u32
        ensures { result ≡ log_room (B.bytes self.now.bytes) }
    {
        let Some(head) = self.head else {
            return 0;
        };
        let whole = self.bytes.as_slice().len().saturating_sub(HEAD_SIZE) / RECORD_SIZE;
        let fitting = whole.saturating_sub(head.used as usize);
        fitting.min((u32::MAX - head.used) as usize) as u32
    }
}

impl<B: Bytes> Device for Log<B> {
    ghost contents = { λ s. log_blocks (B.bytes s.bytes) };

    ghost allowed = { λ s. log_room (B.bytes s.bytes) };

    ghost kept = { λ s t. B.kept s.bytes t.bytes × OnlyAppends (B.bytes s.bytes) (B.bytes t.bytes) };

    ghost laws = { log_laws (λ s. s.bytes) B.bytes B.laws };

    fn count(&self) -> u32 {
        self.head.map_or(0, |head| u32::from(head.count))
    }

    fn allowance(&self) -> u32 {
        self.room()
    }

    fn read(&self, block: u32, buffer: &mut [u8]) -> Result<(), Refused> {
        let head = self.head_for(block, buffer.len())?;
        records::read(self.bytes.as_slice(), head.used, block, buffer);
        Ok(())
    }

    fn write(&mut self, block: u32, source: &[u8]) -> Result<(), Refused>
        ensures served { is_ok result ≡ takes_write (B.bytes self.old.bytes) block source.now }
        ensures sets { log_blocks (B.bytes self.new.bytes) ≡ written_blocks (is_ok result) (B.bytes self.old.bytes) block source.now }
        ensures keeps { B.kept self.old.bytes self.new.bytes × OnlyAppends (B.bytes self.old.bytes) (B.bytes self.new.bytes) }
        ensures costs { log_room (B.bytes self.old.bytes) ≤ log_room (B.bytes self.new.bytes) + (if is_ok result then 1 else 0) }
        ensures falls { log_room (B.bytes self.new.bytes) ≤ log_room (B.bytes self.old.bytes) }
        ensures appends { AppendsOne (B.bytes self.old.bytes) block source.now (B.bytes self.new.bytes) result }
    {
        let Head { used, count } = self.head_for(block, source.len())?;
        if self.room() == 0 {
            return Err(Refused);
        }
        records::put_record(&mut self.bytes, used, block as u16, source);
        self.head = Some(Head {
            used: used + 1,
            count,
        });
        Ok(())
    }
}
