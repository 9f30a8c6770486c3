//! A block's tree, up to its interfaces with their offsets.

ghost use Rattle.std.specs.Prelude.{◌≡◌, IfOk};
ghost use Rattle.cg_svspec.specs.Printable.{AllOf};
ghost use Rattle.cg_desc.specs.Laid.{IsLaid};
ghost use Rattle.cg_desc.specs.Valid.{IsValidBlock};
ghost use Rattle.cg_blkread.specs.Described.{block_of};
ghost use Rattle.cg_block.specs.Stages.{IsBlock, IsLaidOutAs};
ghost use Rattle.cg_block.specs.Breaks.{FindsLayout};

use cg_blkread::block;
use cg_desc::{BlockDesc, DescFault, LaidBlock};
use cg_expand::expand;
use cg_hjson::Tree;
use cg_layout::lay;
use std::alloc::Global;

/// The items of the block, laid out.
fn laid_items(
    alloc: Global,
    tree: &Tree,
    file: u32,
    block: BlockDesc,
) -> Result<LaidBlock, DescFault>
    requires stage { IsBlock tree.now }
    requires block { block ≡ block_of file tree.now }
    requires valid { IsValidBlock block }
    ensures finds { FindsLayout result file tree.now (λ laid. IsLaidOutAs file tree.now laid) }
    ensures laid { IfOk result (λ laid. AllOf IsLaid laid.faces) }
{
    match expand(alloc, &block) {
        Ok(items) => lay(alloc, block, items),
        Err(refusal) => Err(refusal),
    }
}

/// The block that a tree describes, its interfaces laid out, or the first of all that the tree breaks up to its layout.
///
/// `file` is the number of the tree's file. Names that come twice in what is written are no matter of this call.
pub fn laid_block(alloc: Global, tree: &Tree, file: u32) -> Result<LaidBlock, DescFault>
    ensures finds { FindsLayout result file tree.now (λ laid. IsLaidOutAs file tree.now laid) }
    ensures valid { IfOk result (λ laid. IsValidBlock (block_of file tree.now)) }
    ensures laid { IfOk result (λ laid. AllOf IsLaid laid.faces) }
{
    match block(alloc, tree, file) {
        Ok(block) => laid_items(alloc, tree, file, block),
        Err(refusal) => Err(refusal),
    }
}
