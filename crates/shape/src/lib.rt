// The shape of an index, forecast from the hashes and weights of its records.
#![tactic(auto)]

mod row;
mod shapes;

pub use row::Row;
pub use shapes::{Shape, forecast};
