use arrayvec::ArrayVec;

// Bucket blocks in order: a change makes at most one for each prefix length.
pub type Buckets = ArrayVec<[u8; 512], 8>;
