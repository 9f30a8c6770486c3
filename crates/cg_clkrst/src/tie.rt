//! Ports with their sources.

use cg_base::Text;

/// What a port is one of: an instance or a listed crossbar, by its number in the top.
#[derive(Clone, Copy, Debug, PartialEq, Eq)]
pub enum Owner {
    Inst(u32),
    Xbar(u32),
}

/// A clock port, or where `reset` is true a reset port, with the name of its source among the top's clocks or resets.
///
/// A crossbar's port is named as the crossbar's file has the clock.
#[derive(Drop)]
pub struct Tie {
    pub owner: Owner,
    pub reset: bool,
    pub port: Text,
    pub source: Text,
}
