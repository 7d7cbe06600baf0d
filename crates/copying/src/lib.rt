// Copies one device's blocks onto another, and writes only those that differ.
#![tactic(auto)]

mod copy;
mod error;

pub use copy::copy_blocks;
pub use error::CopyError;
