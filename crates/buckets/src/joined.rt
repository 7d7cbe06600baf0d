ghost use Rattle.std.specs.Prelude.{◌++◌};
ghost use Rattle.records.specs.Items.{records_in};

use crate::source::Source;
use crate::sources::record_in;
use records::bucket_count;

// The records of one bucket block, then those of another.
#[derive(Clone, Copy)]
pub struct Joined<'a, 'b> {
    pub first: &'a [u8],
    pub second: &'b [u8],
}

impl Source for Joined<'_, '_> {
    ghost records = { λ s. records_in s.first.now ++ records_in s.second.now };

    fn count(&self) -> usize {
        bucket_count(self.first) + bucket_count(self.second)
    }

    fn record(&self, n: usize) -> &[u8] {
        let count = bucket_count(self.first);
        if n < count {
            record_in(self.first, n)
        } else {
            record_in(self.second, n - count)
        }
    }
}
