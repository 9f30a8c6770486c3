//! A crossbar's file, up to its description.

ghost use Rattle.std.specs.Prelude.{IfOk};
ghost use Rattle.cg_desc.specs.Crossbar.{IsValidCrossbar};
ghost use Rattle.cg_files.specs.Files.{some_file};
ghost use Rattle.cg_crossbar.specs.Breaks.{ReadsCrossbar};

use cg_desc::{DescFault, XbarDesc};
use cg_files::tree_of;
use cg_xbread::xbar;
use std::alloc::Global;

/// The crossbar that a file describes, or the first of all that the file breaks up to there.
///
/// `file` is the file's number in the build, and `before` how many bytes the files before it have together.
pub fn read_crossbar(
    alloc: Global,
    file: u32,
    before: u64,
    bytes: &[u8],
) -> Result<XbarDesc, DescFault>
    ensures reads { ReadsCrossbar result (some_file file before bytes.now) }
    ensures valid { IfOk result (λ x. IsValidCrossbar x) }
{
    match tree_of(alloc, file, before, bytes) {
        Ok(tree) => xbar(alloc, &tree, file),
        Err(refusal) => Err(refusal),
    }
}
