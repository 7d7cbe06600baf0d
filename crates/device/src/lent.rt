ghost use Rattle.std.specs.Prelude.{◌≡◌};
ghost use Rattle.device.specs.Laws.{lent_laws};

use crate::{Device, Refused};

// A device that is lent is a device, and its writes go to the lender's.
impl<D: Device> Device for &mut D {
    ghost contents = { λ r. D.Device.contents r.now };

    ghost allowed = { λ r. D.Device.allowed r.now };

    ghost kept = { λ r s. (r.ghost_name ≡ s.ghost_name) × D.Device.kept r.now s.now };

    ghost laws = { lent_laws (λ r. r.now) (λ r. r.ghost_name) D.Device.laws };

    fn count(&self) -> u32 {
        (**self).count()
    }

    fn allowance(&self) -> u32 {
        (**self).allowance()
    }

    fn read(&self, block: u32, buffer: &mut [u8]) -> Result<(), Refused> {
        (**self).read(block, buffer)
    }

    fn write(&mut self, block: u32, source: &[u8]) -> Result<(), Refused> {
        (**self).write(block, source)
    }
}
