//! The sources of a top's clocks and resets (OpenTitan Top Generation Tool).
//!
//! `ties` takes a top that is joined with its blocks and crossbars and lists each clock port and each reset port of each instance, and each
//! clock of each listed crossbar, with the source that the top names for it. An instance's ports stand as its block's `clocking` uses
//! them, each where it is first used, a clock's name and a reset's apart; a crossbar's clocks stand in the order of their first use.
//! The answer is the first port that has no source, or one that the top does not have, where there is one, exactly. A law says that a top
//! has one list of ties.
//!
//! Names that the top gives for ports that are not there are read past. Not promised: that memory is found.
#![tactic(auto)]

mod laws;
mod listing;
mod missing;
mod owned;
mod ports;
mod sources;
mod tie;
mod tying;

pub use laws::ties_are_one;
pub use tie::{Owner, Tie};
pub use tying::ties;
