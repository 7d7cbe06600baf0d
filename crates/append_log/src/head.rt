// What the head of a valid log says.
#[derive(Clone, Copy, Debug, PartialEq, Eq)]
pub struct Head {
    // the records used
    pub used: u32,
    // the count of blocks
    pub count: u16,
}
