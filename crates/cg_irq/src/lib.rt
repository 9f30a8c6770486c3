//! The interrupts and alerts of a top, bit by bit, with their numbers (OpenTitan Top Generation Tool).
//!
//! `numbers` takes a top that is joined with its blocks and lists every bit of every interrupt of every instance, and likewise of every
//! alert: by instance, then by the place in the block's list, then by bit. Entry k of the interrupts is source k + 1, since source 0 is
//! none, and entry k of the alerts is alert k. Which bits there are is said bit by bit, apart from the order. The answer is the first
//! instance with which interrupts or alerts are too many, where there is one, exactly. The laws say that a top has one numbering.
//!
//! It speaks of the instances and their blocks alone, so it is met by a plain copy of a top too. Not promised: that memory is found.
#![tactic(auto)]

mod bits;
mod counts;
mod laws;
mod limits;
mod listing;
mod numbering;

pub use bits::{Bit, IrqMap};
pub use laws::{merged_has_blocks, numbering_is_one};
pub use numbering::numbers;
