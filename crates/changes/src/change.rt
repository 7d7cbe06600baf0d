use plans::Numbers;

// What a change of an index did with blocks: how many of the first spare ones it took, and which it
// gave up.
#[derive(Clone, Copy)]
pub struct Change {
    pub taken: usize,
    pub given: Numbers,
}
