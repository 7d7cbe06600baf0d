// Changes of an index: planned first, then made.
#![tactic(auto)]

mod change;
mod changing;
mod creating;
mod heading;
mod making;
mod table;

pub use change::Change;
pub use changing::{put, remove};
pub use creating::create;
pub use making::make;
