// Key kinds: which strings are keys, their hashes, and how they are ordered.
#![tactic(auto)]

mod kind;
mod names;
mod numbers;
mod position;

pub use kind::KeyKind;
pub use names::ExactNames;
pub use numbers::{NumberHash, RegisterNumbers, StraightNumbers};
pub use position::{Hashed, compare_positions};
