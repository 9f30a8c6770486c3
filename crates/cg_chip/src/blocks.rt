//! The texts of a top's blocks.

ghost use Rattle.std.specs.Prelude.{◌≡◌, ℕ, List, length, IfOk, OnOk, Some, slice_get};
ghost use Rattle.cg_outputs.specs.Inner.{put_outputs};
ghost use Rattle.cg_block.specs.Outputs.{block_files};
ghost use Rattle.cg_chip.specs.Inner.{AreDescribed, IsDescribed, Tells, block_fault, block_texts, blocks_fault};

use crate::fault::clash;
use cg_base::{List, Memory};
use cg_block::{block_texts, put_block_outputs};
use cg_desc::{DescFault, LaidBlock};
use cg_hjson::Tree;
use cg_outputs::OutFile;
use cg_sv::SvRegFault;
use std::alloc::Global;

/// Puts the texts of a block among others, or tells the first name that comes twice in them.
fn put_block(
    alloc: Global,
    outputs: &mut List<OutFile>,
    laid: &LaidBlock,
    tree: &Tree,
) -> Result<(), DescFault>
    requires described { IsDescribed laid.now tree.now }
    ensures put { OnOk result (outputs.new ≡ put_outputs outputs.old (block_files tree.now laid.now)) }
    ensures tells { Tells result (block_fault laid.now tree.now) }
{
    let texts = match block_texts(alloc, laid) {
        Ok(texts) => texts,
        Err(SvRegFault::Clash { name }) => {
            return Err(clash(alloc, laid.desc.file, tree.at, &name));
        }
        Err(SvRegFault::Memory) => return Err(DescFault::Memory),
    };
    match put_block_outputs(alloc, outputs, tree, laid, &texts) {
        Ok(()) => Ok(()),
        Err(Memory) => Err(DescFault::Memory),
    }
}

/// Puts the texts of blocks among others, each in the place of its name; or tells the first name that comes twice in the first block that
/// has one.
pub fn put_blocks(
    alloc: Global,
    outputs: &mut List<OutFile>,
    blocks: &[LaidBlock],
    trees: &[Tree],
) -> Result<(), DescFault>
    requires count { length trees.now ≡ length blocks.now }
    requires described { AreDescribed blocks.now trees.now }
    ensures put { OnOk result (outputs.new ≡ put_outputs outputs.old (block_texts blocks.now trees.now)) }
    ensures tells { Tells result (blocks_fault blocks.now trees.now) }
{
    for number in 0..blocks.len() {
        match put_block(alloc, outputs, &blocks[number], &trees[number]) {
            Ok(()) => {}
            Err(refused) => return Err(refused),
        }
    }
    Ok(())
}
