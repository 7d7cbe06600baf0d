// Records, the record n of a block or page, and search in a bucket block.
#![tactic(auto)]

mod items;
mod record;
mod searching;

pub use items::{
    BUCKET_HEAD, PAGE_HEAD, PAIR, bucket_count, bucket_key, bucket_record, page_record,
};
pub use record::{MAX_RECORD, Record, read_record};
pub use searching::{find, place_for, search};
