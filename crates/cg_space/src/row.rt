//! The rows of an address map.

use cg_desc::Place;

/// A host of a crossbar, by their numbers.
#[derive(Clone, Copy, Debug, PartialEq, Eq)]
pub struct HostId {
    pub xbar: u32,
    pub node: u32,
}

/// The addresses from `first` up to and with `last`, and what they are for a host: a register, a window whole, with index 0, or a
/// range of a device outside.
#[derive(Clone, Copy, Debug, PartialEq, Eq)]
pub struct Row {
    pub host: HostId,
    pub first: u32,
    pub last: u32,
    pub place: Place,
}
