//! Bits of a top's instances.

use cg_base::List;

/// A bit of an instance: bit `bit`, from the lowest, of the item of number `item` in one of the lists of its block.
///
/// All three count from 0.
#[derive(Clone, Copy, Debug, PartialEq, Eq)]
pub struct Bit {
    pub inst: u32,
    pub item: u32,
    pub bit: u32,
}

/// The interrupts and the alerts of a top, bit by bit: entry k of `intr` is interrupt source k + 1, and entry k of `alert` is alert k.
#[derive(Drop)]
pub struct IrqMap {
    pub intr: List<Bit>,
    pub alert: List<Bit>,
}
