//! A top's own file.

ghost use Rattle.std.specs.Prelude.{option_map, IfOk};
ghost use Rattle.cg_desc.specs.Top.{IsValidTop};
ghost use Rattle.cg_design.specs.Breaks.{BreaksTopFile, DescribesTop, Finds};
ghost use Rattle.cg_design.specs.Files.{given_file};

use crate::file::given_tree;
use cg_desc::{DescFault, TopDesc};
use cg_hjson::Tree;
use cg_topread::top;
use std::alloc::Global;

/// The tree of a top's file, with what it describes.
#[derive(Drop)]
pub struct TopSource {
    pub tree: Tree,
    pub top: TopDesc,
}

/// The top that the first file of a build describes, or the first of all that the file breaks up to its keys.
///
/// `given` is what there is of the file, `None` where it is absent.
pub fn read_top(alloc: Global, given: Option<&[u8]>) -> Result<TopSource, DescFault>
    ensures finds { Finds result 0 (BreaksTopFile (given_file 0 0 (option_map (λ b. b.now) given.entry))) (λ source. DescribesTop (given_file 0 0 (option_map (λ b. b.now) given.entry)) source.tree source.top) }
    ensures valid { IfOk result (λ source. IsValidTop source.top) }
{
    let tree = match given_tree(alloc, 0, 0, given) {
        Ok(tree) => tree,
        Err(refused) => return Err(refused),
    };
    match top(alloc, &tree, 0) {
        Ok(top) => Ok(TopSource { tree, top }),
        Err(refused) => Err(refused),
    }
}
