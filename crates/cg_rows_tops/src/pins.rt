//! The pins of a top without a fault, or the line of the first signal that breaks a rule.

ghost use Rattle.cg_desc.specs.Merged.{IsMerged};

use crate::build::number_of;
use crate::shown::instance;
use cg_base::Memory;
use cg_desc::{DescFault, MergedTop};
use cg_irq::Bit;
use cg_pinmux::{PadTie, PinMap, pins};
use std::alloc::{AllocError, Global};

/// A bit: its instance, the number and the name of its port, and its own number.
fn show_bit(top: &MergedTop, bit: Bit, out: &mut String) -> Result<(), AllocError> {
    let Bit { inst, item, bit } = bit;
    let name = instance(top, inst);
    write!(out, "{name} {item} ")?;
    if let Some(block) = top.block_of(inst) {
        if let Some(port) = block.desc.ios.as_slice().get(item as usize) {
            let port = &port.name;
            write!(out, "{port}")?;
        }
    }
    write!(out, " {bit}")
}

/// A line for each bit of a vector.
fn show_bits(
    top: &MergedTop,
    vector: &str,
    bits: &[Bit],
    out: &mut String,
) -> Result<(), AllocError> {
    for (number, bit) in bits.iter().enumerate() {
        write!(out, "\n{vector} {number}: ")?;
        show_bit(top, *bit, out)?;
    }
    Ok(())
}

/// A line for each bit with a pad.
fn show_pads(top: &MergedTop, pads: &[PadTie], out: &mut String) -> Result<(), AllocError> {
    for tie in pads {
        let PadTie { bit, pad } = *tie;
        write!(out, "\npad {pad} ")?;
        if let Some(name) = top.top.pads.as_slice().get(pad as usize) {
            write!(out, "{name}")?;
        }
        write!(out, ": ")?;
        show_bit(top, bit, out)?;
    }
    Ok(())
}

fn shown(alloc: Global, top: &MergedTop, pins: &PinMap) -> Result<String, Memory> {
    let mut out = String::new(alloc);
    show_bits(top, "in", pins.ins.as_slice(), &mut out)?;
    show_bits(top, "out", pins.outs.as_slice(), &mut out)?;
    show_pads(top, pins.pads.as_slice(), &mut out)?;
    if out.is_empty() {
        write!(out, "\nno pins")?;
    }
    Ok(out)
}

fn counted(alloc: Global, pins: &PinMap) -> Result<String, Memory> {
    let ins = pins.ins.len();
    let outs = pins.outs.len();
    let pads = pins.pads.len();
    Ok(format!(in alloc; "\n{ins} in, {outs} out, {pads} pads")?)
}

/// The bits with their numbers, and those with pads.
#[tactic(auto, using(crate::proofs::Judging::few_pads, crate::proofs::Judging::has_its_blocks))]
pub fn show_pins(alloc: Global, top: &MergedTop) -> Result<String, DescFault>
    requires { IsMerged top.now }
{
    let pins = pins(alloc, top)?;
    Ok(shown(alloc, top, &pins)?)
}

/// How many bits have numbers, and how many pads.
#[tactic(auto, using(crate::proofs::Judging::few_pads, crate::proofs::Judging::has_its_blocks))]
pub fn pin_counts(alloc: Global, top: &MergedTop) -> Result<String, DescFault>
    requires { IsMerged top.now }
{
    let pins = pins(alloc, top)?;
    Ok(counted(alloc, &pins)?)
}
