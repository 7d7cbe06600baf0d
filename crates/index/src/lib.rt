// The index: records of any kind on any device, by extendible hashing.
#![tactic(auto)]

mod blocks;
mod fault;
mod found;
mod search;

pub use blocks::{Bucket, read_block, read_bucket};
pub use fault::Fault;
pub use found::Found;
pub use search::find;
