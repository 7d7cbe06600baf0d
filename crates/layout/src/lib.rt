// Laying records out in buckets, in memory.
#![tactic(auto)]

mod branch;
mod halves;
mod part;
mod splitting;
mod table;

pub use branch::{Branch, slot_prefix};
pub use splitting::lay_out;
pub use table::Buckets;
