use crate::numbers::Numbers;

// A bucket that others were merged into: its block, how many bits its prefix leaves, and the blocks of
// the others.
#[derive(Clone, Copy)]
pub struct Merge {
    pub block: [u8; 512],
    pub room: u8,
    pub given: Numbers,
}
