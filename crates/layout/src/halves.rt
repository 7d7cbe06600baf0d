ghost use Rattle.std.specs.Prelude.{◌≡◌, ◌+◌, ◌*◌, ◌-◌, ◌^◌, ◌<◌, ◌≤◌, true, if◌then◌else◌, MatchOption, Decides};
ghost use Rattle.records.specs.Records.{is_record, key_of};
ghost use Rattle.shape.specs.Shapes.{prefix_of};
ghost use Rattle.index.specs.Stored.{prefix_at};
ghost use Rattle.layout.specs.Laid.{Halves};

use crate::part::Part;
use buckets::Prefix;
use kinds::KeyKind;
use records::read_record;

// The hash of a record's key, and 0 for bytes that are no record, so that they count under prefix 0.
fn hash_of<K: KeyKind>(bytes: &[u8]) -> u32
    ensures { result ≡ (if is_record bytes.now then K.KeyKind.kind.hash (key_of bytes.now) else 0) }
{
    read_record(bytes).map_or(0, |parts| K::hash(parts.key))
}

impl Part {
    // The prefix as a bucket block has it.
    pub fn prefix(self) -> Prefix
        ensures { result ≡ prefix_at self.room self.prefix }
    {
        Prefix {
            bits: 7 - self.room,
            top: u32::from(self.prefix << self.room) << 25,
        }
    }

    // The low half and the high half, unless it is one slot.
    pub fn halves(self) -> Option<(Part, Part)>
        ensures { MatchOption result (self.room ≡ 0) (λ p. Halves self p.0 p.1) }
    {
        let room = self.room.checked_sub(1)?;
        let low = Part {
            room,
            prefix: 2 * self.prefix,
        };
        let high = Part {
            room,
            prefix: low.prefix + 1,
        };
        Some((low, high))
    }

    // Whether a record's hash begins with the prefix.
    pub fn has<K: KeyKind>(self, bytes: &[u8]) -> bool
        ensures { is_record bytes.now ≡ true → Decides result (prefix_of self.room (K.KeyKind.kind.hash (key_of bytes.now)) ≡ self.prefix) }
    {
        u64::from(hash_of::<K>(bytes)) >> (25 + self.room) == u64::from(self.prefix)
    }
}
