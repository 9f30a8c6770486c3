//! The bits that have numbers, in their order.

ghost use Rattle.std.specs.Prelude.{◌≡◌, ◌<◌, ◌++◌, IfOk, OnOk, Some};
ghost use Rattle.cg_pinmux.specs.Checks.{AreNormal, IsNormalIfAny, IsNumbered};
ghost use Rattle.cg_pinmux.specs.Regions.{IsNormal, ports_of};
ghost use Rattle.cg_pinmux.specs.Listed.{bits_of_port, bits_of_region, bits_of_joint, side_bits, takes};

use crate::region::{Region, ports_of};
use crate::resolved::Resolved;
use cg_base::{List, Memory};
use cg_desc::{IoDesc, IoDir, Joint, MergedTop};
use cg_irq::Bit;
use std::alloc::Global;

/// The most bits of `mio_in`, and of `mio_out`.
const MOST_BITS: usize = 65_536;

/// One of the two vectors: `mio_in` or `mio_out`.
#[derive(Clone, Copy)]
pub(crate) enum Side {
    Inputs,
    Outputs,
}

/// The bits of one side up to the signal `full_from` with which they are too many, or of all signals, whose count it is then.
#[derive(Drop)]
pub(crate) struct Numbered {
    pub bits: List<Bit>,
    pub full_from: usize,
}

/// Whether a port of this direction has numbers on a side.
fn takes(side: Side, dir: IoDir) -> bool
    ensures { result ≡ takes side dir }
{
    match (side, dir) {
        (Side::Inputs, IoDir::Out) => false,
        (Side::Outputs, IoDir::In) => false,
        (_, _) => true,
    }
}

/// Adds the bits of a port that are in a region.
fn add_port(region: Region, number: u32, port: &IoDesc, bits: &mut List<Bit>) -> Result<(), Memory>
    requires within { region.low < port.now.width }
    requires some { region.low < region.high }
    ensures { OnOk result (bits.new ≡ bits.old ++ bits_of_port region number port.now) }
{
    for place in 0..(port.width.min(region.high) - region.low) {
        bits.push(Bit {
            inst: region.inst,
            item: number,
            bit: region.low + place,
        })?;
    }
    Ok(())
}

/// Adds the bits of a port that are in a region, if the port has numbers on the side.
fn add_side(
    side: Side,
    region: Region,
    number: u32,
    port: &IoDesc,
    bits: &mut List<Bit>,
) -> Result<(), Memory>
    requires within { region.low < port.now.width }
    requires some { region.low < region.high }
    ensures { OnOk result (bits.new ≡ bits.old ++ side_bits side region number (Some port.now)) }
{
    if takes(side, port.dir) {
        add_port(region, number, port, bits)?;
    }
    Ok(())
}

/// Adds the bits of a region that have numbers on a side.
fn add_region(
    top: &MergedTop,
    side: Side,
    region: Region,
    bits: &mut List<Bit>,
) -> Result<(), Memory>
    requires { IsNormal (ports_of top.now region.inst) region }
    ensures { OnOk result (bits.new ≡ bits.old ++ bits_of_region top.now side region) }
{
    let ports = ports_of(top, region.inst);
    for place in 0..(region.end - region.first) {
        let number = region.first + place;
        add_side(side, region, number, &ports[number as usize], bits)?;
    }
    Ok(())
}

/// Adds the bits of a signal that have numbers on a side.
fn add_signal(
    top: &MergedTop,
    side: Side,
    signal: &Resolved,
    bits: &mut List<Bit>,
) -> Result<(), Memory>
    requires { IsNormalIfAny top.now signal.now.region }
    ensures { OnOk result (bits.new ≡ bits.old ++ bits_of_joint top.now side signal.now.joint signal.now.region) }
{
    match (signal.joint, signal.region) {
        (Joint::Muxed, Some(region)) => add_region(top, side, region, bits),
        (_, _) => Ok(()),
    }
}

/// The bits of the signals that have numbers on a side, up to the signal with which they are too many.
pub(crate) fn number_bits(
    alloc: Global,
    top: &MergedTop,
    side: Side,
    signals: &[Resolved],
) -> Result<Numbered, Memory>
    requires { AreNormal top.now signals.now }
    ensures { IfOk result (IsNumbered top.now side signals.now) }
{
    let mut bits = List::new(alloc);
    for number in 0..signals.len() {
        add_signal(top, side, &signals[number], &mut bits)?;
        if bits.len() > MOST_BITS {
            return Ok(Numbered {
                bits,
                full_from: number,
            });
        }
    }
    Ok(Numbered {
        bits,
        full_from: signals.len(),
    })
}
