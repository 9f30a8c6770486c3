ghost use Rattle.std.specs.Prelude.{◌≡◌};
ghost use Rattle.cg_gen.specs.Run.{code_of};

use crate::due::Status;

/// How a run ended; `code` gives the number with which the program ends.
#[derive(Clone, Copy, Debug, PartialEq, Eq)]
pub enum Ending {
    /// All that was due is done.
    Done(Status),
    ReadFailed,
    WriteFailed,
    Memory,
}

impl Ending {
    /// The status as a number.
    pub fn code(self) -> u8
        ensures { result ≡ code_of self }
    {
        match self {
            Ending::Done(Status::Built) => 0,
            Ending::Done(Status::Refused) => 1,
            Ending::Done(Status::NoCommand) => 2,
            Ending::ReadFailed => 3,
            Ending::WriteFailed => 4,
            Ending::Memory => 5,
        }
    }
}
