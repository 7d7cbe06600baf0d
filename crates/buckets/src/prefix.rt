ghost use Rattle.std.specs.Prelude.{◌≡◌};
ghost use Rattle.buckets.specs.Prefixes.{is_prefix, begins};

// The first bits of hashes: how many, and the bits at the top of 32.
#[derive(Clone, Copy, Debug, PartialEq, Eq)]
pub struct Prefix {
    pub bits: u8,
    pub top: u32,
}

impl Prefix {
    // At most 7 bits, with zeros below them.
    pub fn is_proper(self) -> bool
        ensures { result ≡ is_prefix self }
    {
        self.bits <= 7 && u64::from(self.top) % (1 << (32 - self.bits)) == 0
    }

    // Whether a hash begins with these bits.
    pub fn begins(self, hash: u32) -> bool
        ensures { result ≡ begins self hash }
    {
        let below = 32u8.saturating_sub(self.bits);
        u64::from(hash) >> below == u64::from(self.top) >> below
    }
}
