//! The ranges of a crossbar's nodes.

ghost use Rattle.std.specs.Prelude.{◌≡◌, ◌<◌, length, IfOk};
ghost use Rattle.cg_desc.specs.Ends.{CrossbarIs};
ghost use Rattle.cg_desc.specs.Merged.{design_of, IsValidMerged};
ghost use Rattle.cg_desc.specs.Ranges.{AreRangesOf};
ghost use Rattle.cg_desc.specs.declared.crossbar.XbarDesc.{XbarDesc as Crossbar};
ghost use Rattle.cg_space.specs.Answers.{AreNodeRanges};
ghost use Rattle.cg_space.specs.Inner.Tables.{entries_of};
ghost use Rattle.cg_space.specs.Violations.{NoViolation};

use crate::checked::{marks_of, tables_of};
use crate::coverage::Coverage;
use cg_base::{List, Memory};
use cg_desc::{MergedTop, NodeRanges};
use std::alloc::Global;

/// The ranges that are kept in a table.
fn entries(alloc: Global, table: &[Coverage]) -> Result<List<NodeRanges>, Memory>
    ensures { IfOk result (λ entries. entries ≡ entries_of table.now) }
{
    let mut entries = List::new(alloc);
    for coverage in table {
        let ranges = List::of(alloc, coverage.ranges.as_slice())?;
        entries.push(NodeRanges { ranges })?;
    }
    Ok(entries)
}

/// The ranges of each node of a crossbar, in the order of its nodes; those of a host are none.
///
/// The top breaks none of the rules on ranges, as `check` tells.
pub fn ranges(alloc: Global, top: &MergedTop, xbar: u32) -> Result<List<NodeRanges>, Memory>
    requires valid { IsValidMerged top.now }
    requires there { xbar < length top.now.xbars }
    requires unbroken { NoViolation top.now }
    ensures are { IfOk result (AreNodeRanges top.now xbar) }
    ensures fit { IfOk result (λ entries. (x : Crossbar) → CrossbarIs (design_of top.now) xbar x → AreRangesOf x entries) }
{
    let marks = marks_of(alloc, top)?;
    let tables = tables_of(alloc, top, marks.as_slice())?;
    entries(alloc, tables.as_slice()[xbar as usize].as_slice())
}
