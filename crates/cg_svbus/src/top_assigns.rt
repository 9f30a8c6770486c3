//! What drives the outputs of a top's module that are not links.

ghost use Rattle.std.specs.Prelude.{◌≡◌, ◌++◌, [], ◌∷◌, IfOk, OnOk, map, length};
ghost use Rattle.cg_sv.specs.Views.{expression_of, entry_of};
ghost use Rattle.cg_svspec.specs.Tree.{lit};
ghost use Rattle.cg_topspec.specs.Nets.{interrupt_bit, alert_bit, pin_output_bit};
ghost use Rattle.cg_topspec.specs.Top.{counting};
ghost use Rattle.cg_topspec.specs.TopModule.{vector_assign, pad_outputs, top_assigns};

use crate::top_bits::{alert_bit, bits_of, interrupt_bit, pad_driver, pin_output_bit};
use crate::top_nodes::numbers;
use cg_base::{List, Memory};
use cg_desc::MergedTop;
use cg_irq::{Bit, IrqMap};
use cg_pinmux::PinMap;
use cg_sv::{Entry, Expr, make};
use std::alloc::Global;

/// Adds the assignment of an output with these bits, the first lowest, where there are any.
#[tactic(auto, using(crate::proofs::TopParts::assigned))]
fn add_vector(
    alloc: Global,
    entries: &mut List<Entry>,
    name: &str,
    parts: Vec<Expr>,
) -> Result<(), Memory>
    ensures { OnOk result (map entry_of entries.new ≡ map entry_of entries.old ++ vector_assign name.now (map expression_of parts.items)) }
{
    if parts.is_empty() {
        return Ok(());
    }
    make::assign(alloc, entries, name, bits_of(parts))?;
    Ok(())
}

/// The bits of the interrupts, behind bit 0, which stands for none.
fn interrupt_bits(alloc: Global, top: &MergedTop, bits: &[Bit]) -> Result<Vec<Expr>, Memory>
    ensures { IfOk result (λ parts. map expression_of parts.items ≡ lit 1 0 ∷ map (interrupt_bit top.now) bits.now) }
{
    let mut parts = Vec::new(alloc);
    parts.push(make::lit(1, 0))?;
    for bit in bits {
        let part = interrupt_bit(alloc, top, *bit)?;
        parts.push(part)?;
    }
    Ok(parts)
}

/// The bits of the alerts.
fn alert_bits(alloc: Global, top: &MergedTop, bits: &[Bit]) -> Result<Vec<Expr>, Memory>
    ensures { IfOk result (λ parts. map expression_of parts.items ≡ map (alert_bit top.now) bits.now) }
{
    let mut parts = Vec::new(alloc);
    for bit in bits {
        let part = alert_bit(alloc, top, *bit)?;
        parts.push(part)?;
    }
    Ok(parts)
}

/// The bits that go out to pins.
fn pin_bits(alloc: Global, top: &MergedTop, bits: &[Bit]) -> Result<Vec<Expr>, Memory>
    ensures { IfOk result (λ parts. map expression_of parts.items ≡ map (pin_output_bit top.now) bits.now) }
{
    let mut parts = Vec::new(alloc);
    for bit in bits {
        let part = pin_output_bit(alloc, top, *bit)?;
        parts.push(part)?;
    }
    Ok(parts)
}

/// What drives each pad.
fn pad_outputs(alloc: Global, top: &MergedTop, pins: &PinMap) -> Result<Vec<Expr>, Memory>
    ensures { IfOk result (λ parts. map expression_of parts.items ≡ pad_outputs top.now pins.now) }
{
    let pads = numbers(alloc, top.top.pads.len())?;
    let mut parts = Vec::new(alloc);
    for pad in pads.iter() {
        let part = pad_driver(alloc, top, pins.pads.as_slice(), *pad)?;
        parts.push(part)?;
    }
    Ok(parts)
}

/// Adds all assignments.
pub fn add_assigns(
    alloc: Global,
    entries: &mut List<Entry>,
    top: &MergedTop,
    irq: &IrqMap,
    pins: &PinMap,
) -> Result<(), Memory>
    ensures { OnOk result (map entry_of entries.new ≡ map entry_of entries.old ++ top_assigns top.now irq.now pins.now) }
{
    let sources = interrupt_bits(alloc, top, irq.intr.as_slice())?;
    add_vector(alloc, entries, "intr_src", sources)?;
    let alerts = alert_bits(alloc, top, irq.alert.as_slice())?;
    add_vector(alloc, entries, "alert_src", alerts)?;
    let outputs = pin_bits(alloc, top, pins.outs.as_slice())?;
    add_vector(alloc, entries, "mio_out", outputs)?;
    let pads = pad_outputs(alloc, top, pins)?;
    add_vector(alloc, entries, "pad_out", pads)?;
    Ok(())
}
