// Plans: what a change of an index will write. Planning reads only.
#![tactic(auto)]

mod extent;
mod list;
mod located;
mod locating;
mod merge;
mod merging;
mod numbers;
mod plan;
mod planning;

pub use merge::Merge;
pub use numbers::Numbers;
pub use plan::Plan;
pub use planning::{plan_put, plan_remove};
