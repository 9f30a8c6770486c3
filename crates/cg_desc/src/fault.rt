ghost use Rattle.std.specs.Prelude.{◌≡◌};
ghost use Rattle.cg_desc.specs.declared.fault.DescFault.TheVariants.{Memory as OutOfMemory};

use crate::At;
use cg_base::{Memory, Text};
use std::cmp::Ordering;
use thiserror::Error;

/// A rule that a description breaks, with the place where it does.
///
/// `phase` is the step of the work at which the rule is read; a rule may be read in several.
/// `file` is the number of the file in the order in which a command takes its files, from 0.
/// `name` is what the fault's line ends in, as the key or the register that is meant, or empty.
#[derive(Debug, Drop, PartialEq, Eq)]
pub struct Fault {
    pub phase: u8,
    pub rule: u8,
    pub file: u32,
    pub at: At,
    pub name: Text,
}

/// Why a description was refused.
#[derive(Debug, Drop, PartialEq, Eq, Error)]
pub enum DescFault {
    /// The description breaks a rule.
    #[error("rule {} is broken", .0.rule)]
    Fault(Fault),
    /// Memory was not found; it says nothing about the description.
    #[error("out of memory")]
    Memory,
}

impl Fault {
    ghost use Rattle.std.specs.Prelude.{◌↔◌, IsTrue};
    ghost use Rattle.cg_desc.specs.Faults.{Before, fault_cmp};

    /// Whether this fault is told rather than the other: by phase, then file, then byte place, then
    /// rule, then the bytes of the name. It takes no memory.
    pub fn before(&self, other: &Fault) -> bool
        ensures { IsTrue result ↔ Before self.now other.now }
    {
        self.compare(other).is_lt()
    }

    #[tactic(auto, unfolding(crate::specs::Faults::fault_cmp))]
    fn compare(&self, other: &Fault) -> Ordering
        ensures { result ≡ fault_cmp self.now other.now }
    {
        self.phase
            .cmp(&other.phase)
            .then(self.file.cmp(&other.file))
            .then(self.at.byte.cmp(&other.at.byte))
            .then(self.rule.cmp(&other.rule))
            .then(self.name.cmp(&other.name))
    }
}

ghost use Rattle.cg_desc.specs.Faults.{BeforeIsIrreflexive, BeforeIsTransitive, BeforeIsTotal};

/// The order of faults is a strict one, and total up to what it reads: two faults of which neither
/// is before the other agree in phase, file, byte place, rule and name.
pub fn faults_are_ordered()
    ensures irreflexive { BeforeIsIrreflexive }
    ensures transitive { BeforeIsTransitive }
    ensures total { BeforeIsTotal }
{}

impl From<Memory> for DescFault {
    ghost from_gives = { λ _ e. e ≡ OutOfMemory };

    fn from(_: Memory) -> Self {
        DescFault::Memory
    }
}
