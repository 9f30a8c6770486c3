//! What files describe, as they are read one after the other, and the first of all that they break.

ghost use Rattle.std.specs.Prelude.{◌≡◌, ◌+◌, [], ℕ, None as Nothing, map, option_map, IfOk};
ghost use Rattle.cg_design.specs.Files.{size_of};
ghost use Rattle.cg_design.specs.Inner.Reading.{Adds, IsCountOf, sizes};

use cg_base::{List, Memory};
use cg_desc::{DescFault, Fault};
use cg_merge::earlier_fault;
use std::alloc::Global;

/// What files describe, as far as each of them breaks nothing, and the first of all that they break by themselves.
#[derive(Drop)]
pub(crate) struct Reading<T> {
    pub found: List<T>,
    pub first: Option<Fault>,
}

impl<T: Drop> Reading<T> {
    /// No file is read.
    pub fn new(alloc: Global) -> Reading<T>
        ensures found { result.found ≡ [] }
        ensures first { result.first ≡ Nothing }
    {
        Reading {
            found: List::new(alloc),
            first: None,
        }
    }

    /// One more file is read, with this answer.
    pub fn add(self, read: Result<T, DescFault>) -> Result<Reading<T>, Memory>
        ensures { IfOk result (λ new. Adds self read new) }
    {
        let Reading { mut found, first } = self;
        match read {
            Ok(item) => {
                found.push(item)?;
                Ok(Reading { found, first })
            }
            Err(DescFault::Fault(fault)) => Ok(Reading {
                found,
                first: earlier_fault(first, Some(fault)),
            }),
            Err(DescFault::Memory) => Err(Memory),
        }
    }
}

/// How many bytes there are up to the end of a file, as far as the limit of all files asks for it.
pub(crate) fn behind(before: u64, given: Option<&[u8]>) -> u64
    ensures { (exact : ℕ) → IsCountOf before exact → IsCountOf result (exact + size_of (option_map (λ b. b.now) given.entry)) }
{
    match given {
        Some(bytes) => before.saturating_add(bytes.len() as u64),
        None => before,
    }
}

/// The same, up to the end of these files.
pub(crate) fn behind_all(before: u64, given: &[Option<&[u8]>]) -> u64
    ensures { (exact : ℕ) → IsCountOf before exact → IsCountOf result (exact + sizes (map (option_map (λ b. b.now)) given.now)) }
{
    let mut count = before;
    for bytes in given {
        count = behind(count, *bytes);
    }
    count
}
