//! Reading a top.

ghost use Rattle.std.specs.Prelude.{IfOk};
ghost use Rattle.cg_desc.specs.Top.{IsValidTop};
ghost use Rattle.cg_topread.specs.Reads.{Reads};

use crate::described::describe_top;
use crate::keys::first_in_top;
use cg_desc::{DescFault, TopDesc};
use cg_finding::refusal;
use cg_hjson::Tree;
use std::alloc::Global;

/// Reads the description of a top from the document that the file of this number holds.
///
/// A refusal names the first rule that the top breaks of those on keys, kinds, names and lengths: that at the earliest place,
/// then that of the least number, then that with the least name. A description is valid. `Memory` says nothing about the top.
pub fn top(alloc: Global, tree: &Tree, file: u32) -> Result<TopDesc, DescFault>
    ensures reads { Reads result file tree.now }
    ensures valid { IfOk result (λ top. IsValidTop top) }
{
    if let Some(found) = first_in_top(alloc, tree)? {
        return Err(refusal(alloc, found, file));
    }
    Ok(describe_top(alloc, tree, file)?)
}
