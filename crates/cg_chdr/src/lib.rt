//! C headers: of blocks, by `cg_blkhdr`, and of tops (OpenTitan Register Tool and Top Generation Tool, C headers).
//!
//! `top_header` writes the header of a merged top from its numbers of interrupts and alerts and its pins: the base and the size of each
//! device interface, and the numbers of interrupts, alerts and pins. A header in which a name would be defined twice is refused, with the
//! first such name, exactly where one repeats; `top_header_names` has the names. `block_header` and `read` are passed on.
//!
//! The text is the one of `cg_tophdr`, and by its law the constants that a reader finds in it are the top's. Not promised: that memory is
//! found, or that a compiler of C takes the text.
#![tactic(auto)]

mod definitions;
mod instances;
mod names;
mod top;

pub use cg_blkhdr::{Constant, HdrClash, HdrFault, block_header, read};
pub use top::{top_header, top_header_names};
