ghost use Rattle.std.specs.Prelude.{◌≡◌, ◌+◌, [], ◌∷◌, ◌++◌, length, if◌then◌else◌, nat_lt};
ghost use Rattle.plans.specs.Planned.{numbers_of};

use crate::numbers::Numbers;

impl Numbers {
    pub fn new() -> Numbers
        ensures none { numbers_of result ≡ [] }
        ensures len { result.len ≡ 0 }
    {
        Numbers {
            list: [0; 8],
            len: 0,
        }
    }

    // One number more, or no where there are eight.
    pub fn push(&mut self, number: u16) -> bool
        ensures fits { result ≡ nat_lt self.old.len 8 }
        ensures list { numbers_of self.new ≡ (if result then numbers_of self.old ++ number ∷ [] else numbers_of self.old) }
        ensures len { self.new.len ≡ self.old.len + (if result then 1 else 0) }
    {
        let at = self.len;
        if at >= 8 {
            return false;
        }
        self.list[at] = number;
        self.len = at + 1;
        true
    }

    // The numbers as a slice.
    pub fn as_slice(&self) -> &[u16]
        ensures { result.now ≡ numbers_of self.now }
    {
        &self.list[0..self.len]
    }
}
