// What the shape of an index asks of a record.
#[derive(Clone, Copy, Debug, PartialEq, Eq)]
pub struct Row {
    pub hash: u32,
    pub weight: u16,
}
