//! The numbers of a top's interrupts and alerts.

ghost use Rattle.std.specs.Prelude.{◌≤◌, IfOk, length};
ghost use Rattle.cg_irq.specs.Instances.{HasBlocks};
ghost use Rattle.cg_irq.specs.Listed.{alert_widths, bits_of, interrupt_widths, widths_of};
ghost use Rattle.cg_irq.specs.Numbers.{AreNumbers};
ghost use Rattle.cg_irq.specs.Violations.{Numbers};

use crate::bits::IrqMap;
use crate::limits::first_past_limit;
use crate::listing::{alerts_of, interrupts_of};
use cg_base::Memory;
use cg_desc::{DescFault, MergedTop};
use cg_finding::refusal;
use std::alloc::Global;

/// The interrupts and alerts of a top that passes no limit.
fn listed(alloc: Global, top: &MergedTop) -> Result<IrqMap, Memory>
    requires has_blocks { HasBlocks top.now }
    requires few_interrupts { length (bits_of 0 (widths_of interrupt_widths top.now)) ≤ 1024 }
    requires few_alerts { length (bits_of 0 (widths_of alert_widths top.now)) ≤ 1024 }
    ensures { IfOk result (AreNumbers top.now) }
{
    let intr = interrupts_of(alloc, top)?;
    let alert = alerts_of(alloc, top)?;
    Ok(IrqMap { intr, alert })
}

/// The interrupts and the alerts of a top that is joined with its blocks, bit by bit, in the order of their numbers.
///
/// Entry k of `intr` is interrupt source k + 1, since source 0 is none, and entry k of `alert` is alert k (OpenTitan Top Generation
/// Tool). Both count bits from 0: by instance, then by the place in the block's list, then from the lowest bit; each alert has one bit,
/// and it does not matter whether a block has registers for them. `DescFault::Fault` is the first instance, by its place in the top's
/// file, with which there are more than 1,024 interrupts or more than 1,024 alerts. `DescFault::Memory` says nothing about the top.
pub fn numbers(alloc: Global, top: &MergedTop) -> Result<IrqMap, DescFault>
    requires has_blocks { HasBlocks top.now }
    ensures { Numbers result top.now }
{
    if let Some(found) = first_past_limit(top) {
        return Err(refusal(alloc, found, top.top.file));
    }
    match listed(alloc, top) {
        Ok(map) => Ok(map),
        Err(Memory) => Err(DescFault::Memory),
    }
}
