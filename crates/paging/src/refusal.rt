ghost use Rattle.std.specs.Prelude.{◌≡◌, Some};
ghost use Rattle.paging.specs.Refusals.{number};
ghost use Rattle.paging.specs.declared.refusal.PageError.TheVariants.{Broken};
ghost use Rattle.paging.specs.Messages.{message};

use index::Fault;
use std::error::Error;
use std::fmt;

// Why there is no page.
#[derive(Clone, Copy, Debug, PartialEq, Eq)]
pub enum PageError {
    // the buffer has not 64 to 4,096 bytes
    Buffer,
    // the bookmark is neither empty nor a lawful key
    Bookmark,
    // the blocks are not those of an index
    Broken,
}

impl PageError {
    // The number of a refusal. A `match`, since broken blocks have none, and so no discriminant.
    pub fn number(self) -> Option<u8>
        ensures { result ≡ number self }
    {
        match self {
            PageError::Buffer => Some(6),
            PageError::Bookmark => Some(7),
            PageError::Broken => None,
        }
    }
}

impl fmt::Display for PageError {
    ghost output = { λ error. Some (message error) };

    fn fmt<W: fmt::Write>(&self, f: &mut fmt::Formatter<W>) -> fmt::Result {
        match self {
            PageError::Buffer => write!(f, "refused 6, a bad buffer"),
            PageError::Bookmark => write!(f, "refused 7, a bad bookmark"),
            PageError::Broken => write!(f, "no index"),
        }
    }
}

impl Error for PageError {}

// The blocks are not those of an index.
#[derive(Clone, Copy, Debug, PartialEq, Eq)]
pub(crate) struct NoIndex;

impl From<Fault> for NoIndex {
    fn from(_fault: Fault) -> Self {
        NoIndex
    }
}

impl From<NoIndex> for PageError {
    ghost from_gives = { λ _ e. e ≡ Broken };

    fn from(_none: NoIndex) -> Self {
        PageError::Broken
    }
}
