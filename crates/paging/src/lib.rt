// A page of an index: the records after a bookmark, read from any device, under any kind.
#![tactic(auto)]

mod blocks;
mod gather;
mod refusal;
mod show;

pub use refusal::PageError;
pub use show::page;
