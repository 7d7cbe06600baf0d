use buckets::{Inserted, Prefix, Removed, build};
use kinds::ExactNames;
use records::{find, place_for, read_record};

// The prefix of no bits, with which every hash begins.
pub const ALL: Prefix = Prefix { bits: 0, top: 0 };

// The bucket block with one record more, unless its name is there or there is no room.
pub fn put(block: &[u8], record: &[u8]) -> Option<[u8; 512]> {
    let parts = read_record(record)?;
    if find::<ExactNames>(block, parts.key).is_some() {
        return None;
    }
    let place = place_for::<ExactNames>(block, parts.key);
    build(
        ALL,
        &Inserted {
            block,
            place,
            record,
        },
    )
}

// The bucket block without the record of a name.
pub fn take(block: &[u8], name: &[u8]) -> Option<[u8; 512]> {
    let place = find::<ExactNames>(block, name)?;
    build(ALL, &Removed { block, place })
}
