use crate::numbers::Numbers;
use layout::Buckets;

// What a change of an index will write: the buckets under one prefix, laid out anew.
#[derive(Drop)]
pub struct Plan {
    // the header block as it was read
    pub header: [u8; 512],
    // a slot under the prefix, and how many bits the prefix leaves
    pub slot: u8,
    pub room: u8,
    // how many bits the prefix of the slot's bucket left
    pub start: u8,
    // the block of the slot's bucket
    pub number: u16,
    // the blocks of the other buckets under the prefix, which it gives up
    pub given: Numbers,
    pub laid: Buckets,
    // how many records the index has then
    pub count: u32,
}
