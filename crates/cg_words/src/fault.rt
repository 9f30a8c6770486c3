ghost use Rattle.std.specs.Prelude.{◌≡◌};
ghost use Rattle.cg_words.specs.declared.fault.WordsFault.TheVariants as fault;

use cg_base::Memory;
use std::alloc::AllocError;
use thiserror::Error;

/// Why words were not read as a command.
#[derive(Clone, Copy, Debug, PartialEq, Eq, Error)]
pub enum WordsFault {
    /// The words are no command.
    #[error("no command")]
    NotCommand,
    /// Memory was not found; it says nothing about the words.
    #[error("out of memory")]
    Memory,
}

impl From<Memory> for WordsFault {
    ghost from_gives = { λ _ e. e ≡ fault.Memory };

    fn from(_: Memory) -> Self {
        WordsFault::Memory
    }
}

impl From<AllocError> for WordsFault {
    ghost from_gives = { λ _ e. e ≡ fault.Memory };

    fn from(_: AllocError) -> Self {
        WordsFault::Memory
    }
}
