//! The file of a crossbar that a top lists.

ghost use Rattle.std.specs.Prelude.{option_map, IfOk};
ghost use Rattle.cg_desc.specs.Crossbar.{IsValidCrossbar};
ghost use Rattle.cg_design.specs.Breaks.{BreaksCrossbarFile, DescribesCrossbar, Finds};
ghost use Rattle.cg_design.specs.Files.{given_file};

use crate::file::{earlier_refusal, given_tree};
use crate::name::first_misnamed;
use cg_desc::{DescFault, XbarDesc};
use cg_finding::refusal;
use cg_xbread::xbar;
use std::alloc::Global;

/// The crossbar that a file describes, which is listed under this name, or the first of all that the file breaks up to its nodes and
/// connections.
///
/// `file` is the file's number in the build, `before` how many bytes the files before it have together, and `given` what there is of it,
/// `None` where it is absent.
pub fn read_crossbar(
    alloc: Global,
    file: u32,
    before: u64,
    given: Option<&[u8]>,
    name: &str,
) -> Result<XbarDesc, DescFault>
    ensures finds { Finds result file (BreaksCrossbarFile name.now (given_file file before (option_map (λ b. b.now) given.entry))) (λ x. DescribesCrossbar name.now (given_file file before (option_map (λ b. b.now) given.entry)) x) }
    ensures valid { IfOk result (λ x. IsValidCrossbar x) }
{
    let tree = match given_tree(alloc, file, before, given) {
        Ok(tree) => tree,
        Err(refused) => return Err(refused),
    };
    let misnamed = first_misnamed(&tree, name);
    match (xbar(alloc, &tree, file), misnamed) {
        (Ok(crossbar), None) => Ok(crossbar),
        (Ok(_), Some(found)) => Err(refusal(alloc, found, file)),
        (Err(refused), found) => Err(earlier_refusal(alloc, refused, found, file)),
    }
}
