//! The file of a block that a top's instances have as their type.

ghost use Rattle.std.specs.Prelude.{option_map, IfOk};
ghost use Rattle.cg_desc.specs.Merged.{IsValidLaidBlock};
ghost use Rattle.cg_design.specs.Breaks.{BreaksBlockFile, DescribesBlock, Finds};
ghost use Rattle.cg_design.specs.Files.{given_file};

use crate::file::{earlier_refusal, given_tree};
use crate::name::first_misnamed;
use cg_block::laid_block;
use cg_desc::{DescFault, LaidBlock};
use cg_finding::refusal;
use cg_hjson::Tree;
use std::alloc::Global;

/// The tree of a block's file, with the block, whose interfaces are laid out.
#[derive(Drop)]
pub struct BlockSource {
    pub tree: Tree,
    pub laid: LaidBlock,
}

/// The block that a file describes, which is the type of this name, or the first of all that the file breaks up to its layout.
///
/// `file` is the file's number in the build, `before` how many bytes the files before it have together, and `given` what there is of it,
/// `None` where it is absent. Names that come twice in what is written are no matter of this call.
pub fn read_block(
    alloc: Global,
    file: u32,
    before: u64,
    given: Option<&[u8]>,
    kind: &str,
) -> Result<BlockSource, DescFault>
    ensures finds { Finds result file (BreaksBlockFile kind.now (given_file file before (option_map (λ b. b.now) given.entry))) (λ s. DescribesBlock kind.now (given_file file before (option_map (λ b. b.now) given.entry)) s.tree s.laid) }
    ensures valid { IfOk result (λ s. IsValidLaidBlock s.laid) }
{
    let tree = match given_tree(alloc, file, before, given) {
        Ok(tree) => tree,
        Err(refused) => return Err(refused),
    };
    let misnamed = first_misnamed(&tree, kind);
    match (laid_block(alloc, &tree, file), misnamed) {
        (Ok(laid), None) => Ok(BlockSource { tree, laid }),
        (Ok(_), Some(found)) => Err(refusal(alloc, found, file)),
        (Err(refused), found) => Err(earlier_refusal(alloc, refused, found, file)),
    }
}
