//! All files of a top together.

ghost use Rattle.std.specs.Prelude.{◌≡◌, ◌+◌, ◌∷◌, ℕ, List, Option, length, map, option_map, IfOk};
ghost use Rattle.cg_desc.specs.Merged.{IsMerged};
ghost use Rattle.cg_desc.specs.Top.{AreTypes, IsValidTop};
ghost use Rattle.cg_space.specs.Violations.{NoViolation};
ghost use Rattle.cg_design.specs.Breaks.{DescribesTop};
ghost use Rattle.cg_design.specs.Files.{given_file, numbered, size_of};
ghost use Rattle.cg_design.specs.Violations.{Merges};

use crate::blocks::parted;
use crate::others::read_others;
use crate::top::TopSource;
use cg_base::{List, Memory, Text};
use cg_desc::{DescFault, MergedTop};
use cg_hjson::Tree;
use cg_merge::merge;
use cg_space::check;
use std::alloc::Global;

/// What a top's files describe together: the tree of its own file, the merged top, and the trees of its blocks' files, in the order of
/// the blocks.
#[derive(Drop)]
pub struct DesignSource {
    pub tree: Tree,
    pub merged: MergedTop,
    pub blocks: List<Tree>,
}

/// What the files of a top describe together, whose ranges are apart, or the first of all that they break up to there: each by itself,
/// then all of them together, then the ranges.
///
/// `source` is what the top's own file describes, `size` how many bytes that file has, and `types` the types of its instances. `others`
/// is what there is of the other files, `None` where one is absent: of the crossbars that the top lists, in its order, and of its types.
pub fn design(
    alloc: Global,
    source: TopSource,
    size: u64,
    types: &List<Text>,
    others: &[Option<&[u8]>],
) -> Result<DesignSource, DescFault>
    requires valid { IsValidTop source.top }
    requires types { AreTypes source.top.insts types.now }
    requires count { length others.now ≡ length source.top.xbars + length types.now }
    ensures merges { (own : Option (List ℕ)) → DescribesTop (given_file 0 0 own) source.tree source.top → size_of own ≡ size
        → Merges result (numbered (own ∷ map (option_map (λ b. b.now)) others.now)) }
    ensures valid { IfOk result (λ s. IsMerged s.merged) }
    ensures spaced { IfOk result (λ s. NoViolation s.merged) }
{
    let TopSource { tree, top } = source;
    let listed = top.xbars.as_slice();
    let others = match read_others(alloc, listed, types.as_slice(), size, others) {
        Ok(others) => others,
        Err(refused) => return Err(refused),
    };
    let (blocks, laid) = match parted(alloc, others.blocks) {
        Ok(parts) => parts,
        Err(Memory) => return Err(DescFault::Memory),
    };
    let merged = match merge(alloc, top, others.crossbars, laid) {
        Ok(merged) => merged,
        Err(refused) => return Err(refused),
    };
    match check(alloc, &merged) {
        Ok(()) => Ok(DesignSource {
            tree,
            merged,
            blocks,
        }),
        Err(refused) => Err(refused),
    }
}
