//! What is wrong at each node of a merged top.

ghost use Rattle.std.specs.Prelude.{◌≡◌, ◌<◌, ℕ, [], get_or, length, IfOk, List as Items};
ghost use Rattle.cg_space.specs.Inner.Marks.{AreMarks};
ghost use Rattle.cg_space.specs.Inner.Sound.{IsSound};
ghost use Rattle.cg_space.specs.Inner.Tables.{AreLinks, AreTables, IsTable};
ghost use Rattle.cg_space.specs.Inner.Verdicts.{AreVerdicts, HaveVerdicts, IsCircleVerdict, IsRangeVerdict};

use crate::coverage::Coverage;
use crate::nodes::node_count;
use crate::verdict::{Verdict, circle_verdict, range_verdict};
use cg_base::{List, Memory};
use cg_desc::MergedTop;
use std::alloc::Global;

/// Which nodes of a crossbar are devices in a circle.
fn circles_in(
    alloc: Global,
    top: &MergedTop,
    xbar: usize,
    marks: &[List<bool>],
) -> Result<List<Verdict>, Memory>
    requires sound { IsSound top.now }
    requires there { xbar < length top.now.xbars }
    requires links { (links : Items (Items ℕ)) × AreLinks top.now links × AreMarks links marks.now }
    ensures { IfOk result (AreVerdicts top.now (IsCircleVerdict top.now) xbar) }
{
    let mut verdicts = List::new(alloc);
    for node in 0..node_count(top, xbar) {
        verdicts.push(circle_verdict(top, xbar, node, marks))?;
    }
    Ok(verdicts)
}

/// Which nodes are devices in a circle, by what each crossbar leads to.
pub fn circles(
    alloc: Global,
    top: &MergedTop,
    marks: &[List<bool>],
) -> Result<List<List<Verdict>>, Memory>
    requires sound { IsSound top.now }
    requires links { (links : Items (Items ℕ)) × AreLinks top.now links × AreMarks links marks.now }
    ensures { IfOk result (HaveVerdicts top.now (IsCircleVerdict top.now)) }
{
    let mut all = List::new(alloc);
    for xbar in 0..top.xbars.len() {
        all.push(circles_in(alloc, top, xbar, marks)?)?;
    }
    Ok(all)
}

/// What is wrong with the ranges of the nodes of a crossbar.
fn wrong_in(
    alloc: Global,
    top: &MergedTop,
    xbar: usize,
    table: &[Coverage],
) -> Result<List<Verdict>, Memory>
    requires sound { IsSound top.now }
    requires there { xbar < length top.now.xbars }
    requires table { IsTable top.now xbar table.now }
    ensures { IfOk result (AreVerdicts top.now (IsRangeVerdict top.now) xbar) }
{
    let mut verdicts = List::new(alloc);
    for node in 0..node_count(top, xbar) {
        verdicts.push(range_verdict(top, xbar, node, table))?;
    }
    Ok(verdicts)
}

/// What is wrong with the ranges of the nodes, by what is kept of each.
pub fn wrong_ranges(
    alloc: Global,
    top: &MergedTop,
    tables: &[List<Coverage>],
) -> Result<List<List<Verdict>>, Memory>
    requires sound { IsSound top.now }
    requires tables { AreTables top.now tables.now }
    ensures { IfOk result (HaveVerdicts top.now (IsRangeVerdict top.now)) }
{
    let mut all = List::new(alloc);
    for xbar in 0..top.xbars.len() {
        all.push(wrong_in(alloc, top, xbar, tables[xbar].as_slice())?)?;
    }
    Ok(all)
}
