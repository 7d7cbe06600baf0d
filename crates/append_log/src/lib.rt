// A device that only appends: each write is one more record in its bytes.
#![tactic(auto)]

mod head;
mod log;
mod records;

pub use head::Head;
pub use log::{Log, LogBuf, LogMut};
