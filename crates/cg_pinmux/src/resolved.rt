//! Signals, each looked up once.

ghost use Rattle.std.specs.Prelude.{◌≡◌, ◌≤◌, ◌<◌, IfOk, IfSome, length, position};
ghost use Rattle.std.specs.Str.{bytes_eq};
ghost use Rattle.cg_irq.specs.Instances.{HasBlocks};
ghost use Rattle.cg_pinmux.specs.Regions.{IsPad, IsRegion};
ghost use Rattle.cg_pinmux.specs.Resolved.{AreResolved, IsResolved};

use crate::names::region_in;
use crate::region::{Region, ports_of};
use cg_base::{List, Memory, Text};
use cg_desc::{InstDesc, Joint, MergedTop, SignalDesc};
use std::alloc::Global;

/// What a signal names: a region of an instance and a pad, each as far as it is there.
#[derive(Clone, Copy)]
pub(crate) struct Resolved {
    pub joint: Joint,
    pub region: Option<Region>,
    pub pad: Option<u32>,
}

/// The number of the first instance of this name.
fn instance_named(insts: &[InstDesc], name: &str) -> Option<usize>
    ensures place { result ≡ position (λ inst. bytes_eq inst.name name.now) insts.now }
    ensures within { IfSome result (λ place. place < length insts.now) }
{
    insts.iter().position(|inst| inst.name.as_str() == name)
}

/// The number of the first pad of this name.
fn pad_named(pads: &[Text], name: &str) -> Option<usize>
    ensures place { result ≡ position (λ pad. bytes_eq pad name.now) pads.now }
    ensures within { IfSome result (λ place. place < length pads.now) }
{
    pads.iter().position(|pad| pad.as_str() == name)
}

/// The bits that a signal names.
fn region_of(top: &MergedTop, signal: &SignalDesc) -> Option<Region>
    requires { HasBlocks top.now }
    ensures { IsRegion top.now signal.now result }
{
    match instance_named(top.top.insts.as_slice(), signal.inst.as_str()) {
        Some(inst) => region_in(
            inst as u32,
            ports_of(top, inst as u32),
            signal.port.as_str(),
        ),
        None => None,
    }
}

/// The pad that a signal names.
fn pad_of(top: &MergedTop, signal: &SignalDesc) -> Option<u32>
    requires { length top.now.top.pads ≤ 256 }
    ensures { IsPad top.now signal.now result }
{
    let Some(name) = &signal.pad else {
        return None;
    };
    match pad_named(top.top.pads.as_slice(), name.as_str()) {
        Some(pad) => Some(pad as u32),
        None => None,
    }
}

/// What a signal names.
fn resolve(top: &MergedTop, signal: &SignalDesc) -> Resolved
    requires has_blocks { HasBlocks top.now }
    requires few_pads { length top.now.top.pads ≤ 256 }
    ensures { IsResolved top.now signal.now result }
{
    Resolved {
        joint: signal.joint,
        region: region_of(top, signal),
        pad: pad_of(top, signal),
    }
}

/// What each signal names.
pub(crate) fn resolve_all(alloc: Global, top: &MergedTop) -> Result<List<Resolved>, Memory>
    requires has_blocks { HasBlocks top.now }
    requires few_pads { length top.now.top.pads ≤ 256 }
    ensures { IfOk result (AreResolved top.now) }
{
    let mut signals = List::new(alloc);
    for signal in top.top.signals.as_slice() {
        signals.push(resolve(top, signal))?;
    }
    Ok(signals)
}
