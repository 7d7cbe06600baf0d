ghost use Rattle.std.specs.Prelude.{◌≡◌, Some};
ghost use Rattle.copying.specs.declared.error.CopyError.TheVariants.{OutOfMemory};
ghost use Rattle.copying.specs.Messages.{message};

use std::alloc::AllocError;
use std::error::Error;
use std::fmt;

// Why nothing was copied.
#[derive(Clone, Copy, Debug, PartialEq, Eq)]
pub enum CopyError {
    // The target has fewer blocks than the source.
    TooSmall,
    // The target allows fewer writes than there are blocks that differ.
    Worn,
    // The list of these blocks found no memory.
    OutOfMemory,
}

impl fmt::Display for CopyError {
    ghost output = { λ e. Some (message e) };

    fn fmt<W: fmt::Write>(&self, f: &mut fmt::Formatter<W>) -> fmt::Result {
        match self {
            CopyError::TooSmall => write!(f, "the target has fewer blocks than the source"),
            CopyError::Worn => write!(f, "the target allows too few writes"),
            CopyError::OutOfMemory => write!(f, "out of memory"),
        }
    }
}

impl Error for CopyError {}

impl From<AllocError> for CopyError {
    ghost from_gives = { λ _ e. e ≡ OutOfMemory };

    fn from(_error: AllocError) -> Self {
        Self::OutOfMemory
    }
}
