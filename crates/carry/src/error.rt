ghost use Rattle.std.specs.Prelude.{◌≡◌};
ghost use Rattle.carry.specs.declared.error.CarryError.TheVariants.{NotCopied};

use copying::CopyError;
use std::error::Error;
use std::fmt;

// Why the program carries nothing.
#[derive(Clone, Copy, Debug, PartialEq, Eq)]
pub enum CarryError {
    Usage,
    InvalidLog,
    NotCopied(CopyError),
}

impl fmt::Display for CarryError {
    fn fmt<W: fmt::Write>(&self, f: &mut fmt::Formatter<W>) -> fmt::Result {
        let text = match self {
            CarryError::Usage => "usage: carry LOG IMAGE",
            CarryError::InvalidLog => "the log is not valid; nothing is written",
            CarryError::NotCopied(CopyError::TooSmall) => {
                "the image has fewer blocks than the log; nothing is written"
            }
            CarryError::NotCopied(CopyError::Worn) => {
                "the image allows too few writes; nothing is written"
            }
            CarryError::NotCopied(CopyError::OutOfMemory) => "out of memory; nothing is written",
        };
        f.write_str(text)
    }
}

impl Error for CarryError {}

impl From<CopyError> for CarryError {
    ghost from_gives = { λ error e. e ≡ NotCopied error };

    fn from(error: CopyError) -> Self {
        Self::NotCopied(error)
    }
}
