ghost use Rattle.std.specs.Prelude.{◌≡◌, ℕ, ◌/◌, ◌%◌, ◌^◌, ◌<◌, ◌≤◌, Decides, ◌≢◌, true, bit_xor};
ghost use Rattle.header.specs.Headers.{RunAt, IsRoom, LawfulAt, LawfulNext, AllLawful};

// Whether the run of slot s has just the slots that share its prefix.
fn is_run(slots: &[u16; 128], room: u8, s: usize) -> bool
    requires { (room ≤ 7) × (s < 128) }
    ensures { Decides result (RunAt slots.now room s) }
{
    (0..128).all(|t| (slots[t] == slots[s]) == (t >> room == s >> room))
}

// The slot beside another that the prefix with `room` bits left tells from it, and no shorter prefix does.
pub fn buddy(slot: u8, room: u8) -> u8
    ensures value { room < 8 → result ≡ bit_xor slot (2 ^ room) }
    ensures wraps { result ≡ bit_xor slot (2 ^ (room % 8)) }
    ensures inside { slot < 128 → room < 7 → result < 128 }
    ensures apart { room < 8 → result / 2 ^ room ≢ slot / 2 ^ room }
    ensures near { room < 8 → result / 2 ^ room / 2 ≡ slot / 2 ^ room / 2 }
{
    slot ^ 1u8.wrapping_shl(u32::from(room))
}

// The bits that the run of a slot leaves, where it is lawful.
pub(crate) fn room_of(slots: &[u16; 128], slot: u8) -> u8
    requires { slot < 128 }
    ensures small { result ≤ 7 }
    ensures only { IsRoom slots.now slot result }
{
    let bucket = slots[usize::from(slot)];
    (0..7)
        .find(|room| slots[usize::from(buddy(slot, *room))] != bucket)
        .unwrap_or(7)
}

// Whether the run of slot s is lawful, where those before it are. Only the first slot of a run is held
// against all others, and each further one against the slot before it.
fn is_lawful_at(slots: &[u16; 128], rooms: &[u8; 128], s: usize) -> bool
    requires { s < 128 }
    ensures next { result ≡ true → LawfulNext slots.now rooms.now s }
    ensures all { AllLawful slots.now rooms.now → result ≡ true }
{
    let room = rooms[s];
    if room > 7 {
        return false;
    }
    if s > 0 && (s - 1) >> room == s >> room {
        return slots[s - 1] == slots[s] && rooms[s - 1] == room;
    }
    is_run(slots, room, s)
}

// Whether the slots are lawful, and their rooms theirs.
pub(crate) fn are_lawful(slots: &[u16; 128], rooms: &[u8; 128]) -> bool
    ensures { Decides result ((s : ℕ) → s < 128 → LawfulAt slots.now rooms.now s) }
{
    (0..128).all(|s| is_lawful_at(slots, rooms, s))
}
