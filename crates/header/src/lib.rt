// The header of an index: its law, its lookups, and its block.
#![tactic(auto)]

mod codec;
mod header;
mod law;

pub use codec::{count_in, decode, encode, pointer_for, set_count};
pub use header::Header;
pub use law::buddy;
