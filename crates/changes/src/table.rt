ghost use Rattle.std.specs.Prelude.{◌≡◌, ℕ, ◌+◌, ◌^◌, ◌≤◌, false, List, length, MatchOption, slice_index};
ghost use Rattle.kinds.specs.Kinds.{Kind};
ghost use Rattle.changes.specs.Relaying.{filled_at, first_in, room_in, is_run, Lays, Relaid};

// The bucket of each slot: its block, and how many bits its prefix leaves. Two arrays, as a header is made of.
#[derive(Clone, Copy)]
pub(crate) struct Table {
    pub slots: [u16; 128],
    pub rooms: [u8; 128],
    ghost slots_long: { length slots ≡ 128 },
    ghost rooms_long: { length rooms ≡ 128 },
}

impl Table {
    // Names a bucket in a run of slots.
    fn fill(&mut self, from: usize, to: usize, number: u16, room: u8)
        requires { (from ≤ to) × (to ≤ 128) }
        ensures slots { (s : ℕ) → slice_index self.new.slots s ≡ filled_at from to number self.old.slots s }
        ensures rooms { (s : ℕ) → slice_index self.new.rooms s ≡ filled_at from to room self.old.rooms s }
    {
        self.slots[from..to].fill(number);
        self.rooms[from..to].fill(room);
    }

    // Names a bucket in the slots that its block says, unless these are no run of slots.
    fn name(&mut self, block: &[u8; 512], number: u16) -> Option<()>
        ensures { MatchOption result (is_run block.now ≡ false) (λ _. ((s : ℕ) → slice_index self.new.slots s ≡ filled_at (first_in block.now) (first_in block.now + 2 ^ room_in block.now) number self.old.slots s) × ((s : ℕ) → slice_index self.new.rooms s ≡ filled_at (first_in block.now) (first_in block.now + 2 ^ room_in block.now) (room_in block.now) self.old.rooms s)) }
    {
        let room = 7u8.checked_sub(block[1])?;
        let from = usize::from(block[4] / 2);
        let to = from + (1 << room);
        if to > 128 {
            return None;
        }
        self.fill(from, to, number, room);
        Some(())
    }

    // Names buckets in their slots.
    pub(crate) fn relay(&mut self, numbers: &[u16], blocks: &[[u8; 512]]) -> Option<()>
        ensures { (kind : Kind) (new : List (List ℕ)) (k p : ℕ) → Lays kind new k p numbers.now blocks.now → MatchOption result ⊥ (λ _. Relaid kind new k p numbers.now self.old.slots self.old.rooms self.new.slots self.new.rooms) }
    {
        for (number, block) in numbers.iter().zip(blocks) {
            self.name(block, *number)?;
        }
        Some(())
    }
}
