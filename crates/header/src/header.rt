ghost use Rattle.std.specs.Prelude.{◌≡◌, ℕ, ◌-◌, ◌/◌, ◌%◌, ◌^◌, ◌<◌, ◌≤◌, replicate, MatchOption, slice_index};
ghost use Rattle.header.specs.Headers.{Runs, Lawful, deepest};

use crate::codec::depth_of;
use crate::law::are_lawful;

// Which bucket holds the hashes that begin with each 7 bits. A header in hand is always lawful.
#[derive(Drop)]
pub struct Header {
    // the length of the longest bucket prefix
    pub(crate) depth: u8,
    // the records in the index
    pub(crate) count: u32,
    // the bucket of each slot; apart from the rooms, since a block has the buckets alone
    pub(crate) slots: [u16; 128],
    // how many of the 7 bits of a slot its bucket's prefix leaves
    pub(crate) rooms: [u8; 128],
    ghost counted: { count < 2 ^ 32 },
    ghost lawful: { Runs slots rooms },
    ghost small: { (s : ℕ) → slice_index rooms (s % 128) ≤ 7 },
    ghost deep: { depth ≡ deepest rooms },
}

impl Header {
    // The header of an index with one bucket and no records.
    pub fn single(bucket: u16) -> Header
        ensures bucket { result.slots ≡ replicate 128 bucket }
        ensures whole { result.rooms ≡ replicate 128 7 }
        ensures empty { result.count ≡ 0 }
    {
        Header {
            depth: 0,
            count: 0,
            slots: [bucket; 128],
            rooms: [7; 128],
        }
    }

    // The header of these parts, where they are lawful.
    pub fn new(count: u32, slots: [u16; 128], rooms: [u8; 128]) -> Option<Header>
        ensures { MatchOption result (Lawful count slots rooms → ⊥) (λ h. Lawful count slots rooms × (h.count ≡ count) × (h.slots ≡ slots) × (h.rooms ≡ rooms)) }
    {
        if !are_lawful(&slots, &rooms) {
            return None;
        }
        let depth = depth_of(&rooms);
        Some(Header {
            depth,
            count,
            slots,
            rooms,
        })
    }

    pub fn depth(&self) -> u8
        ensures { result ≡ deepest self.now.rooms }
    {
        self.depth
    }

    pub fn count(&self) -> u32
        ensures { result ≡ self.now.count }
    {
        self.count
    }

    // The bucket of each slot.
    pub fn slots(&self) -> &[u16; 128]
        ensures value { result.now ≡ self.now.slots }
        ensures lawful { Lawful self.now.count self.now.slots self.now.rooms }
    {
        &self.slots
    }

    // How many of the 7 bits of each slot its bucket's prefix leaves.
    pub fn rooms(&self) -> &[u8; 128]
        ensures value { result.now ≡ self.now.rooms }
        ensures lawful { Lawful self.now.count self.now.slots self.now.rooms }
    {
        &self.rooms
    }

    // The same header for another count of records.
    pub fn with_count(mut self, count: u32) -> Header
        ensures count { result.count ≡ count }
        ensures slots { result.slots ≡ self.slots }
        ensures rooms { result.rooms ≡ self.rooms }
    {
        self.count = count;
        self
    }

    // The bucket of a hash.
    pub fn bucket(&self, hash: u32) -> u16
        ensures { result ≡ slice_index self.now.slots (hash / 2 ^ 25) }
    {
        self.slots[(hash >> 25) as usize]
    }

    // The length of that bucket's prefix.
    pub fn prefix_bits(&self, hash: u32) -> u8
        ensures { result ≡ 7 - slice_index self.now.rooms (hash / 2 ^ 25) }
    {
        7u8.saturating_sub(self.rooms[(hash >> 25) as usize])
    }
}
