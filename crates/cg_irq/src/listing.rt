//! The bits of a top's instances, in their order.

ghost use Rattle.std.specs.Prelude.{◌≡◌, ◌++◌, ◌≤◌, ◌<◌, ◌^◌, IfOk, OnOk, length, map};
ghost use Rattle.cg_irq.specs.Instances.{HasBlocks};
ghost use Rattle.cg_irq.specs.Listed.{alert_widths, bits_of, interrupt_widths, item_bits, list_bits, widths_of};

use crate::bits::Bit;
use cg_base::{List, Memory};
use cg_desc::{AlertDesc, IntrDesc, MergedTop};
use std::alloc::Global;

/// The bits of an item of an instance.
fn add_item(inst: u32, item: u32, width: u32, bits: &mut List<Bit>) -> Result<(), Memory>
    ensures { OnOk result (bits.new ≡ bits.old ++ item_bits inst item 0 width) }
{
    for bit in 0..width {
        bits.push(Bit { inst, item, bit })?;
    }
    Ok(())
}

/// The bits of an instance's interrupts.
fn add_interrupts(inst: u32, intrs: &[IntrDesc], bits: &mut List<Bit>) -> Result<(), Memory>
    requires { length intrs.now ≤ 1024 }
    ensures { OnOk result (bits.new ≡ bits.old ++ list_bits inst 0 (map (λ interrupt. interrupt.width) intrs.now)) }
{
    for (item, intr) in intrs.iter().enumerate() {
        add_item(inst, item as u32, intr.width, bits)?;
    }
    Ok(())
}

/// The bits of an instance's alerts, one each.
fn add_alerts(inst: u32, alerts: &[AlertDesc], bits: &mut List<Bit>) -> Result<(), Memory>
    requires { length alerts.now ≤ 1024 }
    ensures { OnOk result (bits.new ≡ bits.old ++ list_bits inst 0 (map (λ alert. 1) alerts.now)) }
{
    for (item, _alert) in alerts.iter().enumerate() {
        add_item(inst, item as u32, 1, bits)?;
    }
    Ok(())
}

/// The bits of all interrupts of a top that has no more than it may have.
#[tactic(auto, unfolding(crate::specs::Listed::widths_of))]
pub(crate) fn interrupts_of(alloc: Global, top: &MergedTop) -> Result<List<Bit>, Memory>
    requires has_blocks { HasBlocks top.now }
    requires few { length (bits_of 0 (widths_of interrupt_widths top.now)) ≤ 1024 }
    ensures { IfOk result (λ bits. bits ≡ bits_of 0 (widths_of interrupt_widths top.now)) }
{
    let mut bits = List::new(alloc);
    for (number, kind) in top.kinds.as_slice().iter().enumerate() {
        let block = &top.blocks.as_slice()[*kind as usize];
        add_interrupts(number as u32, block.desc.intrs.as_slice(), &mut bits)?;
    }
    Ok(bits)
}

/// The bits of all alerts of a top that has no more than it may have.
#[tactic(auto, unfolding(crate::specs::Listed::widths_of))]
pub(crate) fn alerts_of(alloc: Global, top: &MergedTop) -> Result<List<Bit>, Memory>
    requires has_blocks { HasBlocks top.now }
    requires few { length (bits_of 0 (widths_of alert_widths top.now)) ≤ 1024 }
    ensures { IfOk result (λ bits. bits ≡ bits_of 0 (widths_of alert_widths top.now)) }
{
    let mut bits = List::new(alloc);
    for (number, kind) in top.kinds.as_slice().iter().enumerate() {
        let block = &top.blocks.as_slice()[*kind as usize];
        add_alerts(number as u32, block.desc.alerts.as_slice(), &mut bits)?;
    }
    Ok(bits)
}
