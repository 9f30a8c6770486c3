//! The ties of a top.

ghost use Rattle.std.specs.Prelude.{◌≤◌, IfOk, length};
ghost use Rattle.cg_finding.specs.Found.{sees};
ghost use Rattle.cg_finding.specs.Told.{TellsFirst};
ghost use Rattle.cg_irq.specs.Instances.{HasBlocks};
ghost use Rattle.cg_clkrst.specs.Owned.{BreaksTop};
ghost use Rattle.cg_clkrst.specs.Violations.{Ties};

use crate::listing::all_ties;
use crate::missing::{first_in_crossbars, first_in_instances};
use crate::tie::Tie;
use cg_base::{List, Memory};
use cg_desc::{DescFault, MergedTop};
use cg_finding::{Found, earlier_of, refusal};
use std::alloc::Global;

/// The first port of a top that lacks its source.
fn first_lacking(alloc: Global, top: &MergedTop) -> Result<Option<Found<'_>>, Memory>
    requires has_blocks { HasBlocks top.now }
    requires few_crossbars { length top.now.top.xbars ≤ 16 }
    ensures { IfOk result (λ found. TellsFirst (sees found) (BreaksTop top.now)) }
{
    let instances = first_in_instances(alloc, top)?;
    let crossbars = first_in_crossbars(alloc, top)?;
    Ok(earlier_of(instances, crossbars))
}

/// The clock and reset ports of a top that is joined with its blocks and crossbars, each with its source.
///
/// They stand by instance, and then by listed crossbar, each port where it is first used: an entry of a block's `clocking` uses its clock and
/// then its reset, if it has one, and a crossbar its own clock and then those of its nodes (OpenTitan Top Generation Tool). A name that
/// is both a clock and a reset of a block is two ports. A clock's source is one of the top's clocks, and a reset's one of its resets.
///
/// `DescFault::Fault` is the first port, by the place of its owner's name in the top's file, for which no source is named, or one that the
/// top does not have; of one owner's ports clocks come before resets, and then the least name. `DescFault::Memory` says nothing about
/// the top.
pub fn ties(alloc: Global, top: &MergedTop) -> Result<List<Tie>, DescFault>
    requires has_blocks { HasBlocks top.now }
    requires few_crossbars { length top.now.top.xbars ≤ 16 }
    ensures { Ties result top.now }
{
    match first_lacking(alloc, top) {
        Ok(Some(found)) => return Err(refusal(alloc, found, top.top.file)),
        Ok(None) => {}
        Err(Memory) => return Err(DescFault::Memory),
    }
    match all_ties(alloc, top) {
        Ok(ties) => Ok(ties),
        Err(Memory) => Err(DescFault::Memory),
    }
}
