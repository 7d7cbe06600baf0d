ghost use Rattle.std.specs.Prelude.{◌≡◌, ◌-◌, [], slice_index_or, slice_range};
ghost use Rattle.std.specs.List.{insert, remove};
ghost use Rattle.records.specs.Items.{records_in};

use crate::source::Source;
use records::{bucket_count, bucket_record};

// Record n of a block, and no bytes where there is none.
#[tactic(auto, using(records::proofs::Itemized::record_is))]
pub(crate) fn record_in(block: &[u8], n: usize) -> &[u8]
    ensures { result.now ≡ slice_index_or (records_in block.now) n [] }
{
    bucket_record(block, n).unwrap_or(&[])
}

// All records of a bucket block.
#[derive(Clone, Copy)]
pub struct Whole<'a> {
    pub block: &'a [u8],
}

impl Source for Whole<'_> {
    ghost records = { λ s. records_in s.block.now };

    fn count(&self) -> usize {
        let block = self.block;
        bucket_count(block)
    }

    fn record(&self, n: usize) -> &[u8] {
        let block = self.block;
        record_in(block, n)
    }
}

// A block's records with one put in at a place, or at the end where there is no such place.
#[derive(Clone, Copy)]
pub struct Inserted<'a, 'b> {
    pub block: &'a [u8],
    pub place: usize,
    pub record: &'b [u8],
}

impl Source for Inserted<'_, '_> {
    ghost records = { λ s. insert (records_in s.block.now) s.place s.record.now };

    #[tactic(auto, using(crate::proofs::Edited::length_put_in))]
    fn count(&self) -> usize {
        bucket_count(self.block) + 1
    }

    #[tactic(auto, using(crate::proofs::Edited::put_in_below, crate::proofs::Edited::put_in_here, crate::proofs::Edited::put_in_above))]
    fn record(&self, n: usize) -> &[u8] {
        let place = self.place.min(bucket_count(self.block));
        if n < place {
            record_in(self.block, n)
        } else if n == place {
            self.record
        } else {
            record_in(self.block, n - 1)
        }
    }
}

// A block's records with the one at a place taken out.
#[derive(Clone, Copy)]
pub struct Removed<'a> {
    pub block: &'a [u8],
    pub place: usize,
}

impl Source for Removed<'_> {
    ghost records = { λ s. remove (records_in s.block.now) s.place };

    #[tactic(auto, using(crate::proofs::Edited::length_taken_out))]
    fn count(&self) -> usize {
        let count = bucket_count(self.block);
        if self.place < count { count - 1 } else { count }
    }

    #[tactic(auto, using(crate::proofs::Edited::taken_out_below, crate::proofs::Edited::taken_out_above))]
    fn record(&self, n: usize) -> &[u8] {
        if n < self.place {
            record_in(self.block, n)
        } else if n < bucket_count(self.block) {
            record_in(self.block, n + 1)
        } else {
            &[]
        }
    }
}

// A run of places of a source, from one up to another.
#[derive(Clone, Copy)]
pub struct Run<'a, S> {
    pub source: &'a S,
    pub from: usize,
    pub to: usize,
}

impl<S: Source> Source for Run<'_, S> {
    ghost records = { λ s. slice_range (S.Source.records s.source.now) s.from s.to };

    fn count(&self) -> usize {
        self.to.min(self.source.count()).saturating_sub(self.from)
    }

    fn record(&self, n: usize) -> &[u8] {
        if n < self.to.saturating_sub(self.from) {
            self.source.record(self.from + n)
        } else {
            &[]
        }
    }
}
