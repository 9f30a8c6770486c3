ghost use Rattle.std.specs.Prelude.{◌≡◌};
ghost use Rattle.cg_session.specs.Ends.{code_of};

/// How a session ended; `code` gives the number with which the program ends.
#[derive(Clone, Copy, Debug, PartialEq, Eq)]
pub enum Ending {
    /// The line `end` was read, and the last build was good, or there was none.
    Good,
    /// The line `end` was read, and the last build was refused.
    Refused,
    /// A command is none, or the input ends in one.
    NoCommand,
    ReadFailed,
    WriteFailed,
    Memory,
    /// The input is longer than what counts of it.
    TooLong,
}

impl Ending {
    /// The status as a number.
    pub fn code(self) -> u8
        ensures { result ≡ code_of self }
    {
        match self {
            Ending::Good => 0,
            Ending::Refused => 1,
            Ending::NoCommand => 2,
            Ending::ReadFailed => 3,
            Ending::WriteFailed => 4,
            Ending::Memory => 5,
            Ending::TooLong => 6,
        }
    }
}
