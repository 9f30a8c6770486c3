//! Why a module is not made.

ghost use Rattle.std.specs.Prelude.{◌≡◌, Some};
ghost use Rattle.cg_sv.specs.Clashes.{fault_text};
ghost use Rattle.cg_sv.specs.declared.fault.SvRegFault.TheVariants as SvRegFault;

use cg_base::{Memory, Text};
use std::fmt;

/// Why a module is not made.
#[derive(Debug, Drop)]
pub enum SvRegFault {
    /// A name would be declared twice: the first that repeats an earlier one.
    Clash { name: Text },
    /// Memory was not found.
    Memory,
}

impl fmt::Display for SvRegFault {
    ghost output = { λ fault. Some (fault_text fault) };

    fn fmt<W: fmt::Write>(&self, f: &mut fmt::Formatter<W>) -> fmt::Result {
        match self {
            SvRegFault::Clash { name } => {
                let name = name.as_str();
                write!(f, "the name {name} is declared twice")
            }
            SvRegFault::Memory => write!(f, "out of memory"),
        }
    }
}

impl std::error::Error for SvRegFault {}

impl From<Memory> for SvRegFault {
    ghost from_gives = { λ _ fault. fault ≡ SvRegFault.Memory };

    fn from(_: Memory) -> Self {
        SvRegFault::Memory
    }
}
