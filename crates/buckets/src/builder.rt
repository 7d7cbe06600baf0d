ghost use Rattle.std.specs.Prelude.{◌≡◌, ◌+◌, ◌<◌, ◌≤◌, length, replicate, IfSome, MatchOption, if◌then◌else◌, Some, None, nat_le};
ghost use Rattle.records.specs.Items.{records_in};
ghost use Rattle.records.specs.Records.{load};
ghost use Rattle.buckets.specs.Blocks.{heading, bucket_bytes};
ghost use Rattle.buckets.specs.Builds.{pair, partly};

use crate::prefix::Prefix;
use crate::source::Source;
use records::{BUCKET_HEAD, PAIR};

// What records and their pairs may take in a block of 512 bytes.
const MAX_LOAD: usize = 504;

// What the records of a source leave of that, if they fit.
#[tactic(auto, using(crate::proofs::Held::load_is))]
fn room_left<S: Source>(source: &S) -> Option<usize>
    ensures { MatchOption result (504 < load (S.Source.records source.now)) (λ left. left + load (S.Source.records source.now) ≡ 504) }
{
    let pairs = MAX_LOAD.checked_sub(PAIR.checked_mul(source.count())?)?;
    (0..source.count()).try_fold(pairs, |left, n| left.checked_sub(source.record(n).len()))
}

// The pair that leads to a record.
pub fn pair_bytes(offset: u16, len: u16) -> [u8; 4]
    ensures { result ≡ pair offset len }
{
    let [a, b] = offset.to_be_bytes();
    let [c, d] = len.to_be_bytes();
    [a, b, c, d]
}

fn heading_bytes(prefix: Prefix, count: u16) -> [u8; 8]
    ensures { result ≡ heading prefix count }
{
    let [a, b] = count.to_be_bytes();
    let [c, d, e, f] = prefix.top.to_be_bytes();
    [3, prefix.bits, a, b, c, d, e, f]
}

// The records of a source with their pairs, in a block whose heading is still zero. A loop over numbers, since a
// pair stands by its record's number, and the record where those before it end.
#[tactic(auto, using(crate::proofs::Held::load_is, crate::proofs::Held::size_take))]
fn lay_records<S: Source>(source: &S) -> [u8; 512]
    requires { load (S.Source.records source.now) ≤ 504 }
    ensures { result ≡ partly (replicate 8 0) (S.Source.records source.now) (length (S.Source.records source.now)) }
{
    let mut block = [0; 512];
    let count = source.count();
    let mut at = BUCKET_HEAD + PAIR * count;
    for n in 0..count {
        let record = source.record(n);
        let len = record.len();
        let pair = BUCKET_HEAD + PAIR * n;
        block[pair..pair + PAIR].copy_from_slice(&pair_bytes(at as u16, len as u16));
        block[at..at + len].copy_from_slice(record);
        at += len;
    }
    block
}

// The bucket block of a source's records, unless they are too heavy.
pub fn build<S: Source>(prefix: Prefix, source: &S) -> Option<[u8; 512]>
    ensures bytes { result ≡ (if nat_le (load (S.Source.records source.now)) 504 then Some (bucket_bytes prefix (S.Source.records source.now)) else None) }
    ensures back { IfSome result (λ block. records_in block ≡ S.Source.records source.now) }
{
    room_left(source)?;
    let mut block = lay_records(source);
    block[..BUCKET_HEAD].copy_from_slice(&heading_bytes(prefix, source.count() as u16));
    Some(block)
}
