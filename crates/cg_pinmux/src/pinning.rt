//! The pins of a top, or its first fault.

ghost use Rattle.std.specs.Prelude.{◌≡◌, ◌≤◌, ◌++◌, IfOk, OnOk, length};
ghost use Rattle.cg_irq.specs.Instances.{HasBlocks};
ghost use Rattle.cg_pinmux.specs.Checks.{AreLooked};
ghost use Rattle.cg_pinmux.specs.Listed.{tie_of, ties_below, ties_of};
ghost use Rattle.cg_pinmux.specs.Violations.{Pins};

use crate::check::first_in_signals;
use crate::map::{PadTie, PinMap};
use crate::numbered::{Numbered, Side, number_bits};
use crate::resolved::{Resolved, resolve_all};
use cg_base::{List, Memory};
use cg_desc::{DescFault, Joint, MergedTop};
use cg_finding::refusal;
use cg_irq::Bit;
use std::alloc::Global;

/// The pad tie of a signal, if it is direct.
fn tie_of(signal: &Resolved) -> Option<PadTie>
    ensures { result ≡ tie_of signal.now }
{
    match (signal.joint, signal.region, signal.pad) {
        (Joint::Direct, Some(region), Some(pad)) => Some(PadTie {
            bit: Bit {
                inst: region.inst,
                item: region.first,
                bit: region.low,
            },
            pad,
        }),
        (_, _, _) => None,
    }
}

/// Adds the tie of a signal, if it has one.
fn add_tie(signal: &Resolved, ties: &mut List<PadTie>) -> Result<(), Memory>
    ensures { OnOk result (ties.new ≡ ties.old ++ ties_of (tie_of signal.now)) }
{
    if let Some(tie) = tie_of(signal) {
        ties.push(tie)?;
    }
    Ok(())
}

/// The bits of the direct signals with their pads.
fn ties(alloc: Global, signals: &[Resolved]) -> Result<List<PadTie>, Memory>
    ensures { IfOk result (λ ties. ties ≡ ties_below signals.now (length signals.now)) }
{
    let mut ties = List::new(alloc);
    for signal in signals {
        add_tie(signal, &mut ties)?;
    }
    Ok(ties)
}

/// The signals, each looked up, with the bits that have numbers.
#[derive(Drop)]
struct Looked {
    signals: List<Resolved>,
    ins: Numbered,
    outs: Numbered,
}

fn look(alloc: Global, top: &MergedTop) -> Result<Looked, Memory>
    requires has_blocks { HasBlocks top.now }
    requires few_pads { length top.now.top.pads ≤ 256 }
    ensures { IfOk result (AreLooked top.now) }
{
    let signals = resolve_all(alloc, top)?;
    let ins = number_bits(alloc, top, Side::Inputs, signals.as_slice())?;
    let outs = number_bits(alloc, top, Side::Outputs, signals.as_slice())?;
    Ok(Looked { signals, ins, outs })
}

/// The pins of a top that is joined with its blocks: the bits of `mio_in` and of `mio_out` in the order of their numbers, and the bits that
/// are tied to pads in the order of their signals (OpenTitan Top Generation Tool, pinmux and pinout).
///
/// `DescFault::Fault` is the first signal, by its place in the top's file, that names no bit; that is `direct` and has two bits, no pad that
/// the top has, or the pad of an earlier `direct` one; that is not `manual` and has a bit of an earlier one that is not; or that is `muxed`
/// and with which `mio_in` or `mio_out` has more than 65,536 bits. What an earlier signal has counts whatever that one breaks.
/// `DescFault::Memory` says nothing about the top.
pub fn pins(alloc: Global, top: &MergedTop) -> Result<PinMap, DescFault>
    requires has_blocks { HasBlocks top.now }
    requires few_pads { length top.now.top.pads ≤ 256 }
    ensures { Pins result top.now }
{
    let Ok(looked) = look(alloc, top) else {
        return Err(DescFault::Memory);
    };
    let signals = looked.signals.as_slice();
    if let Some(found) = first_in_signals(top, signals, &looked.ins, &looked.outs) {
        return Err(refusal(alloc, found, top.top.file));
    }
    let Ok(pads) = ties(alloc, signals) else {
        return Err(DescFault::Memory);
    };
    Ok(PinMap {
        ins: looked.ins.bits,
        outs: looked.outs.bits,
        pads,
    })
}
