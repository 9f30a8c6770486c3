//! The layout of a block: the offset of each register and window, or the first fault of offsets and gates (OpenTitan
//! Register Tool).
//!
//! `lay` takes a block's description with the items that its interfaces stand for, each valid. Each item stands at the
//! least offset that its alignment allows behind what precedes it, and an interface's size is the least power of two that
//! its rows fit in. A block is refused exactly where an interface has no row, a register names a gate that is absent or
//! is none, a skip leads back, or an item ends past 2^24 bytes; the fault that is told is the first in the order of
//! `cg_desc`. The interfaces of a block that is laid out are whole, as the law of register modules wants it, and a block
//! is laid out in one way.
//!
//! Not promised: that memory is found, and anything of the rules of other phases, as that names differ.
#![tactic(auto)]

mod faults;
mod gates;
mod items;
mod layout;
mod offsets;

pub use layout::lay;
