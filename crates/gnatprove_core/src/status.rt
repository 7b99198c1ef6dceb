//! How the program ends.

ghost use Rattle.std.specs.Prelude.{◌≡◌};
ghost use Rattle.gnatprove_core.specs.Statuses.{code_of};

/// How a run of the program ended.
#[derive(Clone, Copy, Debug, PartialEq, Eq)]
pub enum Status {
    /// Every row is proved or assumed.
    Proved,
    /// Some row is unproved.
    Unproved,
    /// A file is missing, or is refused.
    Refused,
    /// The words have no reading.
    Usage,
    /// A file could not be read.
    ReadFault,
    /// The answer could not be written.
    WriteFault,
    /// There was no memory.
    Starved,
    /// A quantity passed its limit.
    Limit,
    /// A job was interrupted.
    Interrupted,
}

impl Status {
    /// The number with which the program ends, from 0 to 8.
    pub fn code(&self) -> u8
        ensures { result ≡ code_of self.now }
    {
        match self {
            Status::Proved => 0,
            Status::Unproved => 1,
            Status::Refused => 2,
            Status::Usage => 3,
            Status::ReadFault => 4,
            Status::WriteFault => 5,
            Status::Starved => 6,
            Status::Limit => 7,
            Status::Interrupted => 8,
        }
    }
}
