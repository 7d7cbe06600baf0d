// Pages: the records after a bookmark, as many as fit, in the caller's buffer.
#![tactic(auto)]

mod answer;
mod builder;
mod full;
mod gather;

pub use answer::PageAnswer;
pub use builder::PageBuilder;
pub use full::Full;
