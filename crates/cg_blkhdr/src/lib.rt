//! C headers: the writer of a block's header, and the reader of headers.
//!
//! `block_header` writes where a block's registers and windows are, which bits their fields have, and their reset values, for the
//! firmware that drives the block (OpenTitan Register Tool, C headers). The text is the one of `cg_hdrspec`; its contract says what
//! the text means by what a reader of headers finds in it. A header that would define a name twice is refused, with the first such
//! name, exactly where one repeats. `read` gives the constants of a text exactly where the text is a header, and else the first
//! line that has no form in its place.
//!
//! `whole_header` writes the header of any definitions under a guard, and `upper` and `behind` make names in upper case: headers of
//! tops are written with them too.
//!
//! Not promised: that memory is found, or that a compiler of C takes the text.
#![tactic(auto)]

mod definition;
mod definitions;
mod header;
mod line;
mod names;
mod numeral;
mod pieces;
mod reading;
mod values;

use cg_base::Text;
pub use definition::{Definition, add_decimal, add_hexadecimal};
pub use header::{HdrClash, block_header, whole_header};
pub use names::{behind, upper, with_kind};
pub use reading::{HdrFault, read};

/// A constant of a header: its name, and its value below 2^64.
#[derive(Debug, Drop, PartialEq)]
pub struct Constant {
    pub name: Text,
    pub value: u64,
}
