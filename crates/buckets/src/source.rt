ghost use Rattle.std.specs.Prelude.{◌≡◌, ℕ, List, [], length, slice_index_or};

// Records that a block can be built from.
pub trait Source {
    // The records, in order.
    ghost records: { Self → List (List ℕ) };

    fn count(&self) -> usize
        ensures { result ≡ length (records self.now) };

    // Record n, and no bytes past the last one.
    fn record(&self, n: usize) -> &[u8]
        ensures { result.now ≡ slice_index_or (records self.now) n [] };
}
