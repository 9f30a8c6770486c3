//! Reading a block.

ghost use Rattle.std.specs.Prelude.{◌≡◌, IfOk};
ghost use Rattle.cg_keys.specs.Values.{members_of};
ghost use Rattle.cg_desc.specs.Valid.{IsValidBlock};
ghost use Rattle.cg_blkread.specs.Reads.{Reads, raw_entries};

use crate::described::describe_block;
use crate::keys::first_in_keys;
use crate::raw::RawEntry;
use crate::read_entries::read_block;
use crate::values::first_in_values;
use cg_base::{List, Memory};
use cg_desc::{BlockDesc, DescFault};
use cg_finding::refusal;
use cg_hjson::Tree;
use cg_keys::members;
use std::alloc::Global;

fn entries_of(alloc: Global, tree: &Tree) -> Result<List<RawEntry>, Memory>
    ensures { IfOk result (λ entries. entries ≡ raw_entries (members_of tree.now)) }
{
    Ok(read_block(alloc, members(tree))?)
}

/// Reads the description of a block from the document that the file of this number holds.
///
/// A refusal names the first rule that the block breaks: of those on keys, kinds and the profile,
/// or where none of these is broken of those on bits, reset values and counts; the first is that at
/// the earliest place, then that of the least number, then that with the least name. A description
/// is valid. `Memory` says nothing about the block.
pub fn block(alloc: Global, tree: &Tree, file: u32) -> Result<BlockDesc, DescFault>
    ensures reads { Reads result file tree.now }
    ensures valid { IfOk result (λ described. IsValidBlock described) }
{
    if let Some(found) = first_in_keys(alloc, tree)? {
        return Err(refusal(alloc, found, file));
    }
    let entries = entries_of(alloc, tree)?;
    if let Some(found) = first_in_values(alloc, entries.as_slice())? {
        return Err(refusal(alloc, found, file));
    }
    Ok(describe_block(alloc, tree, file)?)
}
