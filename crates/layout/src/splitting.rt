ghost use Rattle.std.specs.Prelude.{◌≡◌, ℕ, ◌/◌, ◌^◌, ◌<◌, ◌≤◌, true, List, [], length, MatchOption, ◌≢◌, slice_index_or};
ghost use Rattle.records.specs.Records.{is_record, key_of, load};
ghost use Rattle.records.specs.Searches.{Sorted};
ghost use Rattle.shape.specs.Shapes.{under, prefix_of, Held};
ghost use Rattle.shape.specs.Keyed.{by_key};
ghost use Rattle.layout.specs.Laid.{span, Unlaid, LaidBehind, LaidOut};

use crate::branch::Branch;
use crate::part::Part;
use crate::table::Buckets;
use buckets::{Run, Source, build};
use kinds::KeyKind;

// Where the records with another prefix than the low half's begin, from a place on.
fn cut<K: KeyKind, S: Source>(source: &S, from: usize, to: usize, low: Part) -> usize
    requires { from ≤ to }
    ensures after { from ≤ result }
    ensures within { result ≤ to }
    ensures low { (i : ℕ) → from ≤ i → i < result → is_record (slice_index_or (S.Source.records source.now) i []) ≡ true → prefix_of low.room (K.KeyKind.kind.hash (key_of (slice_index_or (S.Source.records source.now) i []))) ≡ low.prefix }
    ensures next { result < to → is_record (slice_index_or (S.Source.records source.now) result []) ≡ true → prefix_of low.room (K.KeyKind.kind.hash (key_of (slice_index_or (S.Source.records source.now) result []))) ≢ low.prefix }
{
    (from..to)
        .find(|n| !low.has::<K>(source.record(*n)))
        .unwrap_or(to)
}

// Lays the records from one place up to another out in buckets: a heavy prefix is cut into its two
// halves. Nothing where they cannot be held.
fn split<K: KeyKind, S: Source>(
    source: &S,
    from: usize,
    to: usize,
    part: Part,
    laid: &mut Buckets,
) -> Option<()>
    requires { (from ≤ to) × (to ≤ length (S.Source.records source.now)) }
    ensures { (ys : List (List ℕ)) → Sorted K.KeyKind.kind ys → span from to (S.Source.records source.now) ≡ under (by_key K.KeyKind.kind) part.room part.prefix ys → MatchOption result (Unlaid K.KeyKind.kind ys part.room part.prefix laid.old) (λ _. LaidBehind K.KeyKind.kind ys part.room part.prefix laid.old laid.new) }
{
    if let Some(block) = build(part.prefix(), &Run { source, from, to }) {
        return laid.try_push(block).ok();
    }
    let (low, high) = part.halves()?;
    let middle = cut::<K, S>(source, from, to, low);
    split::<K, S>(source, from, middle, low, laid)?;
    split::<K, S>(source, middle, to, high, laid)
}

// The buckets of a source's records under the prefix of a slot that leaves `room` bits, or nothing
// where they cannot be held.
pub fn lay_out<K: KeyKind, S: Source>(source: &S, slot: u8, room: u8) -> Option<Buckets>
    ensures { (ys : List (List ℕ)) → Sorted K.KeyKind.kind ys → slot < 128 → room ≤ 7 → load (S.Source.records source.now) ≤ 1008 → S.Source.records source.now ≡ under (by_key K.KeyKind.kind) room (slot / 2 ^ room) ys → MatchOption result (Held (by_key K.KeyKind.kind) room (slot / 2 ^ room) ys → ⊥) (LaidOut K.KeyKind.kind ys room (slot / 2 ^ room)) }
{
    let part = Branch::new(slot, room)?.part();
    let mut laid = Buckets::new();
    split::<K, S>(source, 0, source.count(), part, &mut laid)?;
    Some(laid)
}
