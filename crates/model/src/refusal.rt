ghost use Rattle.std.specs.Prelude.{◌≡◌};
ghost use Rattle.model.specs.Refusals.{number_of};

// Why a call is refused, topmost first.
#[derive(Clone, Copy, Debug, PartialEq, Eq)]
pub enum Refusal {
    Idle = 1,
    LeasesOut,
    OddDevice,
    Worn,
    Unsound,
    Buffer,
    BadName,
    BadKind,
    UnknownNumber,
    NoSuchName,
    Taken,
    NotEmpty,
    OwnBranch,
    NumbersSpent,
    IndexFull,
    VolumeFull,
    NoLease,
    LeasesSpent,
}

impl Refusal {
    pub fn number(self) -> u8
        ensures { result ≡ number_of self }
    {
        self as u8
    }
}
