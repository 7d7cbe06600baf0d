// Building and checking bucket blocks.
#![tactic(auto)]

mod builder;
mod check;
mod joined;
mod prefix;
mod source;
mod sources;

pub use builder::{build, pair_bytes};
pub use check::is_bucket;
pub use joined::Joined;
pub use prefix::Prefix;
pub use source::Source;
pub use sources::{Inserted, Removed, Run, Whole};
