//! Nets of a top's instances, and the bits of them.

ghost use Rattle.std.specs.Prelude.{◌≡◌, ◌++◌, IfOk, codes, map};
ghost use Rattle.cg_sv.specs.Views.{expression_of};
ghost use Rattle.cg_svspec.specs.Tree.{net, lit};
ghost use Rattle.cg_svbus.specs.TopViewed.{item_net, pin_net};
ghost use Rattle.cg_topspec.specs.Nets.{bit_at, interrupt_bit, alert_bit, pin_output_bit};
ghost use Rattle.cg_topspec.specs.TopModule.{bits_of, muxed_number, pad_number, pin_source, pad_driver};

use crate::top_blocks::{
    alerts, instance_name, interrupt_name, interrupt_width, is_bit, port_gives_out, port_name,
    port_width,
};
use crate::top_ports::width_of;
use cg_base::{List, Memory, Text};
use cg_desc::MergedTop;
use cg_irq::Bit;
use cg_pinmux::{PadTie, PinMap};
use cg_sv::{Expr, make};
use std::alloc::Global;

/// The net of an instance's interrupt or alert: what it begins with, the instance, the item.
pub fn item_net(alloc: Global, start: &str, inst: &str, item: &str) -> Result<Text, Memory>
    ensures { IfOk result (λ name. name ≡ item_net start.now inst.now item.now) }
{
    let name = format!(in alloc; "{start}{inst}_{item}")?;
    Ok(Text::from_string(name))
}

/// The net of an instance's port that goes to pins: the instance, the port, `_i` or `_o`.
pub fn pin_net(alloc: Global, inst: &str, port: &str, end: &str) -> Result<Text, Memory>
    ensures { IfOk result (λ name. name ≡ pin_net inst.now port.now end.now) }
{
    let name = format!(in alloc; "p_{inst}_{port}{end}")?;
    Ok(Text::from_string(name))
}

/// Bit `bit` of a net of so many bits: the bare net where it has only one.
pub fn bit_at(alloc: Global, name: &str, width: usize, bit: u32) -> Result<Expr, Memory>
    ensures { IfOk result (λ x. expression_of x ≡ bit_at name.now width bit) }
{
    if width == 1 {
        let net = make::net(alloc, name)?;
        return Ok(net);
    }
    let cut = make::cut(alloc, name, bit, bit)?;
    Ok(cut)
}

/// Several bits, the first lowest.
#[tactic(auto, using(crate::proofs::TopParts::reversed))]
pub fn bits_of(parts: Vec<Expr>) -> Expr
    ensures { expression_of result ≡ bits_of (map expression_of parts.items) }
{
    let mut parts = parts;
    parts.reverse();
    make::cat(List::from_vec(parts))
}

/// A bit of an interrupt.
pub fn interrupt_bit(alloc: Global, top: &MergedTop, bit: Bit) -> Result<Expr, Memory>
    ensures { IfOk result (λ x. expression_of x ≡ interrupt_bit top.now bit) }
{
    let inst = bit.inst as usize;
    let net = item_net(
        alloc,
        "i_",
        instance_name(top, inst),
        interrupt_name(top, bit),
    )?;
    let width = interrupt_width(top, bit);
    let part = bit_at(alloc, net.as_str(), width as usize, bit.bit)?;
    Ok(part)
}

/// The bit of an alert.
#[tactic(auto, using(crate::proofs::Countings::lookups))]
pub fn alert_bit(alloc: Global, top: &MergedTop, bit: Bit) -> Result<Expr, Memory>
    ensures { IfOk result (λ x. expression_of x ≡ alert_bit top.now bit) }
{
    let inst = bit.inst as usize;
    let name = match alerts(top, inst).get(bit.item as usize) {
        None => "",
        Some(alert) => alert.name.as_str(),
    };
    let net = item_net(alloc, "a_", instance_name(top, inst), name)?;
    let part = make::net(alloc, net.as_str())?;
    Ok(part)
}

/// A bit of a port that gives bits out.
pub fn pin_output_bit(alloc: Global, top: &MergedTop, bit: Bit) -> Result<Expr, Memory>
    ensures { IfOk result (λ x. expression_of x ≡ pin_output_bit top.now bit) }
{
    let inst = instance_name(top, bit.inst as usize);
    let net = pin_net(alloc, inst, port_name(top, bit), "_o")?;
    let width = port_width(top, bit);
    let part = bit_at(alloc, net.as_str(), width as usize, bit.bit)?;
    Ok(part)
}

/// The number of the first of the bits that is this one.
fn muxed_number(bits: &[Bit], bit: Bit) -> Option<usize>
    ensures { result ≡ muxed_number bit 0 bits.now }
{
    for (number, other) in bits.iter().enumerate() {
        if is_bit(*other, bit) {
            return Some(number);
        }
    }
    None
}

/// The pad to which the bit is tied.
fn pad_number(ties: &[PadTie], bit: Bit) -> Option<u32>
    ensures { result ≡ pad_number bit ties.now }
{
    for tie in ties {
        if is_bit(tie.bit, bit) {
            return Some(tie.pad);
        }
    }
    None
}

/// What a bit that goes in is given: its bit of `mio_in`, else its pad, else 0.
pub fn pin_source(alloc: Global, top: &MergedTop, pins: &PinMap, bit: Bit) -> Result<Expr, Memory>
    ensures { IfOk result (λ x. expression_of x ≡ pin_source top.now pins.now bit) }
{
    if let Some(number) = muxed_number(pins.ins.as_slice(), bit) {
        let part = bit_at(alloc, "mio_in", pins.ins.len(), width_of(number)?)?;
        return Ok(part);
    }
    if let Some(pad) = pad_number(pins.pads.as_slice(), bit) {
        let part = bit_at(alloc, "pad_in", top.top.pads.len(), pad)?;
        return Ok(part);
    }
    Ok(make::lit(1, 0))
}

/// What drives a pad: the first bit that is tied to it and goes out, else 0.
pub fn pad_driver(
    alloc: Global,
    top: &MergedTop,
    ties: &[PadTie],
    pad: usize,
) -> Result<Expr, Memory>
    ensures { IfOk result (λ x. expression_of x ≡ pad_driver top.now pad ties.now) }
{
    for tie in ties {
        if tie.pad as usize == pad && port_gives_out(top, tie.bit) {
            let part = pin_output_bit(alloc, top, tie.bit)?;
            return Ok(part);
        }
    }
    Ok(make::lit(1, 0))
}
