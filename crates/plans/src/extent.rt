ghost use Rattle.std.specs.Prelude.{◌≡◌, ◌-◌, ◌≤◌};
ghost use Rattle.arrayvec.specs.ArrayVec.{array_vec_len};
ghost use Rattle.plans.specs.Planned.{numbers_of};

use crate::plan::Plan;

impl Plan {
    // How many spare blocks it takes: one for each bucket but the first, which stays in its block.
    pub fn taken(&self) -> usize
        ensures value { result ≡ array_vec_len self.now.laid - 1 }
        ensures few { array_vec_len self.now.laid ≤ 8 }
    {
        self.laid.len().saturating_sub(1)
    }

    // Which blocks it gives up.
    pub fn given(&self) -> &[u16]
        ensures { result.now ≡ numbers_of self.now.given }
    {
        self.given.as_slice()
    }
}
