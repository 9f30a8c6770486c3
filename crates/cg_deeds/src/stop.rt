ghost use Rattle.std.specs.Prelude.{◌≡◌};
ghost use Rattle.cg_deeds.specs.declared.stop.Stop.TheVariants.{Memory as OutOfMemory};

use cg_base::Memory;

/// Why a run did not come to its end: an object of the outside failed, and counted that, or memory was not found.
#[derive(Clone, Copy, Debug, PartialEq, Eq)]
pub enum Stop {
    Failed,
    Memory,
}

impl From<Memory> for Stop {
    ghost from_gives = { λ _ e. e ≡ OutOfMemory };

    fn from(_: Memory) -> Self {
        Stop::Memory
    }
}
