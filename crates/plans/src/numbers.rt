ghost use Rattle.std.specs.Prelude.{◌≤◌};

// A few block numbers. A struct, since they are `Copy`, which no `ArrayVec` is.
#[derive(Clone, Copy)]
pub struct Numbers {
    pub(crate) list: [u16; 8],
    pub(crate) len: usize,
    ghost few: { len ≤ 8 },
}
