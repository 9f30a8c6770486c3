//! A file as it is given, up to its tree, and the first of what is found in it.

ghost use Rattle.std.specs.Prelude.{option_map};
ghost use Rattle.cg_files.specs.Files.{Finds, HasTree};
ghost use Rattle.cg_finding.specs.Found.{sees};
ghost use Rattle.cg_design.specs.Files.{given_file};
ghost use Rattle.cg_design.specs.Inner.{KeepsFirst};

use cg_desc::DescFault;
use cg_files::{absent_file, tree_of};
use cg_finding::{Found, refusal};
use cg_hjson::Tree;
use std::alloc::Global;

/// The tree of a file, which may be absent.
pub(crate) fn given_tree(
    alloc: Global,
    file: u32,
    before: u64,
    given: Option<&[u8]>,
) -> Result<Tree, DescFault>
    ensures { Finds result (given_file file before (option_map (λ b. b.now) given.entry)) (λ tree. HasTree (given_file file before (option_map (λ b. b.now) given.entry)) tree) }
{
    match given {
        Some(bytes) => tree_of(alloc, file, before, bytes),
        None => Err(absent_file(alloc, file)),
    }
}

/// A refusal of the file of this number, or that by a finding there which is before it.
pub(crate) fn earlier_refusal(
    alloc: Global,
    refused: DescFault,
    found: Option<Found>,
    file: u32,
) -> DescFault
    ensures { KeepsFirst refused (sees found.entry) file result }
{
    match (refused, found) {
        (DescFault::Fault(fault), Some(found)) => match refusal(alloc, found, file) {
            DescFault::Fault(other) => {
                if other.before(&fault) {
                    DescFault::Fault(other)
                } else {
                    DescFault::Fault(fault)
                }
            }
            DescFault::Memory => DescFault::Memory,
        },
        (refused, _) => refused,
    }
}
