//! The rows of a merged top's address map.

ghost use Rattle.std.specs.Prelude.{◌≡◌, ℕ, IfOk, List as Items};
ghost use Rattle.cg_desc.specs.Merged.{IsValidMerged};
ghost use Rattle.cg_space.specs.Answers.{Answers};
ghost use Rattle.cg_space.specs.Rows.{AreRows};
ghost use Rattle.cg_space.specs.Violations.{NoViolation};
ghost use Rattle.cg_space.specs.Inner.Leaves.{HaveAllRanges};
ghost use Rattle.cg_space.specs.Inner.Sound.{IsSound};

use crate::behind::add_crossbar;
use crate::checked::{judged, marks_of};
use crate::graph::counts;
use crate::row::Row;
use cg_base::{List, Memory};
use cg_desc::{DescFault, MergedTop};
use std::alloc::Global;

/// The rows of a top without a fault.
fn all_rows(alloc: Global, top: &MergedTop) -> Result<List<Row>, Memory>
    requires sound { IsSound top.now }
    requires unbroken { NoViolation top.now }
    requires ranged { HaveAllRanges top.now }
    ensures { IfOk result (AreRows top.now) }
{
    let marks = marks_of(alloc, top)?;
    let ranks = counts(alloc, marks.as_slice())?;
    let mut rows = List::new(alloc);
    for xbar in 0..top.xbars.len() {
        add_crossbar(alloc, top, ranks.as_slice(), xbar, &mut rows)?;
    }
    Ok(rows)
}

/// The address map of a merged top, in the order of the hosts' crossbars, then the hosts' nodes, then the first addresses.
///
/// A row is there for each register and each window of an interface that a host reaches, and for each range of a device outside; a host
/// is one that stands for no crossbar. A top is refused as by `check`. `Memory` says nothing about the top.
pub fn rows(alloc: Global, top: &MergedTop) -> Result<List<Row>, DescFault>
    requires { IsValidMerged top.now }
    ensures { Answers result top.now (AreRows top.now) }
{
    match judged(alloc, top) {
        Ok(_tables) => match all_rows(alloc, top) {
            Ok(rows) => Ok(rows),
            Err(_) => Err(DescFault::Memory),
        },
        Err(fault) => Err(fault),
    }
}
