// A record in its bucket block: the block, and the place of the record in it.
#[derive(Clone, Copy)]
pub struct Found {
    pub block: [u8; 512],
    pub place: usize,
}
