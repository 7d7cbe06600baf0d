use layout::Branch;

// Where a key stands in an index, or would stand.
#[derive(Drop)]
pub struct Located {
    // the header block
    pub header: [u8; 512],
    // how many records the index has
    pub count: u32,
    // the first bits of the key's hash, and how many the prefix of its bucket leaves
    pub branch: Branch,
    // the bucket's number and block
    pub number: u16,
    pub block: [u8; 512],
    // the key's place in the bucket, or where it would stand
    pub place: Result<usize, usize>,
}
