ghost use Rattle.std.specs.Prelude.{◌≡◌, ℕ, ◌+◌, ◌-◌, ◌*◌, ◌/◌, ◌%◌, ◌^◌, ◌<◌, ◌≤◌, List, IfSome, Some, MatchOption, slice_index};
ghost use Rattle.header.specs.Headers.{IsRoom, deepest, byte_of, pointer_byte, slot_in, pointer_in, recounted, Encodes, Lawful};
ghost use Rattle.words.specs.BigEndian.{word32};

use crate::header::Header;
use crate::law::room_of;
use std::array;
use words::{u16_at, u32_at};

// The first byte of a header block.
const TAG: u8 = 2;

// The length of the longest bucket prefix.
pub(crate) fn depth_of(rooms: &[u8; 128]) -> u8
    ensures { result ≡ deepest rooms.now }
{
    rooms
        .iter()
        .fold(0, |deep: u8, room| deep.max(7u8.saturating_sub(*room)))
}

fn byte(count: u32, deep: u8, slots: &[u16; 128], i: usize) -> u8
    requires { (deep ≤ 7) × (i < 512) }
    ensures { result ≡ byte_of count deep slots.now i }
{
    match i {
        0 => TAG,
        1 => deep,
        2..=5 => count.to_be_bytes()[i - 2],
        6..=7 => 0,
        _ => {
            slots
                .get((i - 8) / 2 * (128 >> deep))
                .map_or(0, |slot| slot.to_be_bytes()[i % 2])
        }
    }
}

// The block of a header.
pub fn encode(header: &Header) -> [u8; 512]
    ensures { Encodes header.now.count (deepest header.now.rooms) header.now.slots result }
{
    array::from_fn(|i| byte(header.count, header.depth, &header.slots, i))
}

fn read_slots(block: &[u8; 512], deep: u8) -> [u16; 128]
    requires { deep ≤ 7 }
    ensures { (i : ℕ) → i < 128 → slice_index result i ≡ slot_in block.now deep i }
{
    array::from_fn(|i| {
        let at = 8 + 2 * (i >> (7 - deep));
        u16::from_be_bytes([block[at], block[at + 1]])
    })
}

fn read_rooms(slots: &[u16; 128]) -> [u8; 128]
    ensures small { (i : ℕ) → i < 128 → slice_index result i ≤ 7 }
    ensures only { (i : ℕ) → i < 128 → IsRoom slots.now i (slice_index result i) }
{
    array::from_fn(|slot| room_of(slots, slot as u8))
}

// The header of a block, if it is one.
pub fn decode(block: &[u8; 512]) -> Option<Header>
    ensures sound { IfSome result (λ h. Encodes h.count (deepest h.rooms) h.slots block.now) }
    ensures lawful { IfSome result (λ h. Lawful h.count h.slots h.rooms) }
    ensures whole { (count : ℕ) (slots rooms : List ℕ) → Lawful count slots rooms → Encodes count (deepest rooms) slots block.now → MatchOption result ⊥ (λ h. (h.count ≡ count) × (h.slots ≡ slots) × (h.rooms ≡ rooms)) }
{
    let deep = block[1];
    if deep > 7 {
        return None;
    }
    let slots = read_slots(block, deep);
    let rooms = read_rooms(&slots);
    let header = Header::new(count_in(block)?, slots, rooms)?;
    (encode(&header) == *block).then_some(header)
}

// The pointer that a header block has for a hash, read in place.
pub fn pointer_for(block: &[u8], hash: u32) -> Option<u16>
    ensures value { result ≡ pointer_in block.now hash }
    ensures told { (count : ℕ) (slots rooms : List ℕ) → Lawful count slots rooms → Encodes count (deepest rooms) slots block.now → result ≡ Some (slice_index slots (hash / 2 ^ 25)) }
{
    if block.len() < 512 || block[1] > 7 {
        return None;
    }
    let slot = (hash >> 25) as usize;
    u16_at(block, 8 + 2 * (slot >> (7 - block[1])))
}

// The count of records that a header block has, read in place.
pub fn count_in(block: &[u8]) -> Option<u32>
    ensures value { result ≡ word32 block.now 2 }
    ensures told { (count depth : ℕ) (slots : List ℕ) → count < 2 ^ 32 → Encodes count depth slots block.now → result ≡ Some count }
{
    u32_at(block, 2)
}

// Writes another count of records into a header block, and leaves the rest.
pub fn set_count(block: &mut [u8; 512], count: u32)
    ensures bytes { (i : ℕ) → i < 512 → slice_index block.new i ≡ recounted block.old count i }
    ensures told { (old depth : ℕ) (slots : List ℕ) → Encodes old depth slots block.old → Encodes count depth slots block.new }
{
    block[2..6].copy_from_slice(&count.to_be_bytes());
}
