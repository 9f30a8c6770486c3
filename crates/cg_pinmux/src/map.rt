//! Bits with their pins.

use cg_base::List;
use cg_irq::Bit;

/// A bit that is tied to the pad of this number in the top's list.
#[derive(Clone, Copy, Debug, PartialEq, Eq)]
pub struct PadTie {
    pub bit: Bit,
    pub pad: u32,
}

/// The pins of a top: entry k of `ins` takes bit k of `mio_in`, entry k of `outs` gives bit k of `mio_out`, and `pads` are the bits
/// that have a pad of their own.
///
/// `item` of a bit is the number of a port in its block's list of ports: inputs, then outputs, then ports that are both.
#[derive(Drop)]
pub struct PinMap {
    pub ins: List<Bit>,
    pub outs: List<Bit>,
    pub pads: List<PadTie>,
}
