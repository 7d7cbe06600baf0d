ghost use Rattle.std.specs.Prelude.{◌≡◌, ◌+◌, ◌/◌, ◌^◌, ◌<◌, ◌≤◌, ◌&&◌, if◌then◌else◌, Some, None, MatchOption, nat_le, nat_lt};
ghost use Rattle.index.specs.Stored.{prefix_at};

use crate::part::Part;
use buckets::Prefix;

// A slot, and how many of its 7 bits a prefix of it leaves.
#[derive(Clone, Copy)]
pub struct Branch {
    pub slot: u8,
    pub room: u8,
    ghost inside: { slot < 128 },
    ghost deep: { room ≤ 7 },
}

// The prefix of a slot that leaves `room` bits, where there is such a slot and prefix.
pub fn slot_prefix(slot: u8, room: u8) -> Option<Prefix>
    ensures { result ≡ (if nat_lt slot 128 && nat_le room 7 then Some (prefix_at room (slot / 2 ^ room)) else None) }
{
    Some(Branch::new(slot, room)?.prefix())
}

impl Branch {
    // Nothing where there is no such slot or prefix. An `if`, since `then_some` would make the branch before the test.
    pub fn new(slot: u8, room: u8) -> Option<Branch>
        ensures { MatchOption result (slot < 128 → room ≤ 7 → ⊥) (λ b. (b.slot ≡ slot) × (b.room ≡ room)) }
    {
        if slot < 128 && room <= 7 {
            Some(Branch { slot, room })
        } else {
            None
        }
    }

    // The prefix as a bucket block has it.
    pub fn prefix(self) -> Prefix
        ensures { result ≡ prefix_at self.room (self.slot / 2 ^ self.room) }
    {
        self.part().prefix()
    }

    // The prefix that is a bit shorter, and nothing above the empty one.
    pub fn up(self) -> Option<Branch>
        ensures { MatchOption result (self.room ≡ 7) (λ b. (b.slot ≡ self.slot) × (b.room ≡ self.room + 1)) }
    {
        Branch::new(self.slot, self.room + 1)
    }

    pub(crate) fn part(self) -> Part
        ensures { (result.room ≡ self.room) × (result.prefix ≡ self.slot / 2 ^ self.room) }
    {
        Part {
            room: self.room,
            prefix: self.slot >> self.room,
        }
    }
}
