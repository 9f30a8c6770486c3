//! The items that the device interfaces of a block stand for (OpenTitan Register Tool).
//!
//! `expand` makes the registers that come of interrupts and alerts, and the words of copied registers, and hands on what
//! else is written, in order. It refuses names that come twice, too many registers, windows and fields, and too many
//! bits of interrupts or alerts; the fault is the first of them by byte place, rule and name. The items it gives are
//! valid: fields stand in order within a word and share no bit.
//!
//! A block that is far too large takes no memory for its items, as long as what is written in its `registers` stands
//! behind the place of that key, as a reader gives it. Not promised here: offsets, and what gates name; a later layer
//! looks at those.
#![tactic(auto)]

mod automatic;
mod block;
mod copies;
mod early;
mod entries;
mod labels;
mod late;
mod names;
mod sizes;

pub use block::expand;
