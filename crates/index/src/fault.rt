ghost use Rattle.std.specs.Prelude.{◌≡◌, Some};
ghost use Rattle.index.specs.declared.fault.Fault.TheVariants.{Broken};
ghost use Rattle.index.specs.Messages.{message};

use device::Refused;
use std::error::Error;
use std::fmt;

// Why an index refuses a call.
#[derive(Clone, Copy, Debug, PartialEq, Eq)]
pub enum Fault {
    // not a record with a lawful key, or not a lawful key: refusal 7
    BadRecord,
    // the records cannot be held: refusal 15
    Full,
    // too few spare blocks, or too few writes allowed
    NoRoom,
    // the blocks are not those of an index
    Broken,
}

impl fmt::Display for Fault {
    ghost output = { λ fault. Some (message fault) };

    fn fmt<W: fmt::Write>(&self, f: &mut fmt::Formatter<W>) -> fmt::Result {
        match self {
            Fault::BadRecord => write!(f, "refused 7, a bad record"),
            Fault::Full => write!(f, "refused 15, a prefix of 7 bits is too heavy"),
            Fault::NoRoom => write!(f, "no room"),
            Fault::Broken => write!(f, "no index"),
        }
    }
}

impl Error for Fault {}

// A block that a device does not have, and an index names, shows that this is none.
impl From<Refused> for Fault {
    ghost from_gives = { λ _ e. e ≡ Broken };

    fn from(_refused: Refused) -> Self {
        Self::Broken
    }
}
