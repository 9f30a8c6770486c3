//! What a register module of the subset of SystemVerilog means, computed.
//!
//! `reset` gives the states of a register module at reset, and `step` what one clock makes of states and inputs. Values are
//! cells: a name and a number. The contracts speak of the valuations of `cg_svspec`, of which each register module has one.
//!
//! Values of inner nets are lists of bits in a table by name, so a clock takes time in the size of the module and memory in the
//! bits of its nets.
//!
//! Not promised: speed on modules that repeat wide nets, and that memory is found.
#![tactic(auto)]

mod bits;
mod clock;
mod expression;
mod known;
mod names;
mod stages;

use cg_base::{List, Text};
pub use clock::{reset, step};

/// The value of a net.
#[derive(Drop)]
pub struct Cell {
    pub name: Text,
    /// Below 2 to the power of the net's width, which is at most 32.
    pub value: u32,
}

/// The values of a module's states.
#[derive(Drop)]
pub struct State {
    pub cells: List<Cell>,
}

/// The values of a module's inputs.
#[derive(Drop)]
pub struct Inputs {
    pub cells: List<Cell>,
}

/// The values of a module's outputs.
#[derive(Drop)]
pub struct Outputs {
    pub cells: List<Cell>,
}
