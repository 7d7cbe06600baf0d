ghost use Rattle.std.specs.Prelude.{◌+◌, ◌*◌, ◌^◌, ◌≤◌};

// The slots under a prefix, which leaves `room` of their 7 bits.
#[derive(Clone, Copy)]
pub(crate) struct Part {
    pub room: u8,
    pub prefix: u8,
    ghost deep: { room ≤ 7 },
    ghost inside: { (prefix + 1) * 2 ^ room ≤ 128 },
}
