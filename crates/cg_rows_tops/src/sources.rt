//! The interrupts, alerts, clocks and resets of a top without a fault, or the line of its first fault.

ghost use Rattle.cg_desc.specs.Merged.{IsMerged};

use crate::shown::{crossbar, instance};
use cg_base::Memory;
use cg_clkrst::{Owner, Tie, ties};
use cg_desc::{DescFault, MergedTop};
use cg_irq::{Bit, IrqMap, numbers};
use std::alloc::{AllocError, Global};

/// The name of an interrupt.
fn interrupt(top: &MergedTop, bit: Bit) -> &str {
    match top.block_of(bit.inst) {
        Some(block) => match block.desc.intrs.as_slice().get(bit.item as usize) {
            Some(interrupt) => interrupt.name.as_str(),
            None => "",
        },
        None => "",
    }
}

/// The name of an alert.
fn alert(top: &MergedTop, bit: Bit) -> &str {
    match top.block_of(bit.inst) {
        Some(block) => match block.desc.alerts.as_slice().get(bit.item as usize) {
            Some(alert) => alert.name.as_str(),
            None => "",
        },
        None => "",
    }
}

/// A line for each interrupt source, and one for each alert.
fn show_numbers(top: &MergedTop, map: &IrqMap, out: &mut String) -> Result<(), AllocError> {
    for (entry, bit) in map.intr.as_slice().iter().enumerate() {
        let source = entry.saturating_add(1);
        let owner = instance(top, bit.inst);
        let name = interrupt(top, *bit);
        let number = bit.bit;
        write!(out, "\nsource {source}: {owner} {name} {number}")?;
    }
    for (entry, bit) in map.alert.as_slice().iter().enumerate() {
        let owner = instance(top, bit.inst);
        let name = alert(top, *bit);
        write!(out, "\nalert {entry}: {owner} {name}")?;
    }
    Ok(())
}

/// A line for each port with its source.
fn show_ties(top: &MergedTop, ties: &[Tie], out: &mut String) -> Result<(), AllocError> {
    for tie in ties {
        match tie.owner {
            Owner::Inst(inst) => {
                let owner = instance(top, inst);
                write!(out, "\n{owner} ")?;
            }
            Owner::Xbar(xbar) => {
                let owner = crossbar(top, xbar);
                write!(out, "\ncrossbar {owner} ")?;
            }
        }
        let kind = if tie.reset { "reset" } else { "clock" };
        let port = &tie.port;
        let source = &tie.source;
        write!(out, "{kind} {port}: {source}")?;
    }
    Ok(())
}

fn numbers_shown(alloc: Global, top: &MergedTop, map: &IrqMap) -> Result<String, Memory> {
    let mut out = String::new(alloc);
    show_numbers(top, map, &mut out)?;
    if out.is_empty() {
        write!(out, "\nno sources")?;
    }
    Ok(out)
}

fn counts_shown(alloc: Global, map: &IrqMap) -> Result<String, Memory> {
    let interrupts = map.intr.len();
    let alerts = map.alert.len();
    Ok(format!(in alloc; "\n{interrupts} interrupts, {alerts} alerts")?)
}

fn ties_shown(alloc: Global, top: &MergedTop, ties: &[Tie]) -> Result<String, Memory> {
    let mut out = String::new(alloc);
    show_ties(top, ties, &mut out)?;
    if out.is_empty() {
        write!(out, "\nno ports")?;
    }
    Ok(out)
}

/// The numbers of interrupts and alerts.
#[tactic(auto, using(crate::proofs::Judging::has_its_blocks))]
pub fn all_numbers(alloc: Global, top: &MergedTop) -> Result<String, DescFault>
    requires { IsMerged top.now }
{
    let map = numbers(alloc, top)?;
    Ok(numbers_shown(alloc, top, &map)?)
}

/// How many interrupts and alerts there are.
#[tactic(auto, using(crate::proofs::Judging::has_its_blocks))]
pub fn number_counts(alloc: Global, top: &MergedTop) -> Result<String, DescFault>
    requires { IsMerged top.now }
{
    let map = numbers(alloc, top)?;
    Ok(counts_shown(alloc, &map)?)
}

/// The clock and reset ports with their sources.
#[tactic(auto, using(crate::proofs::Judging::few_crossbars, crate::proofs::Judging::has_its_blocks))]
pub fn all_ties(alloc: Global, top: &MergedTop) -> Result<String, DescFault>
    requires { IsMerged top.now }
{
    let ties = ties(alloc, top)?;
    Ok(ties_shown(alloc, top, ties.as_slice())?)
}
