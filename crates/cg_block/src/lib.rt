//! A block's unit: from the file of a block to its laid interfaces and to all that is written of it.
//!
//! `read_block` reads the file of a block, whichever file of a build it is, and gives its unit: its tree, its interfaces with their
//! items at their offsets, its register modules and its header; or the first of all that the file breaks. What it breaks is a fact for
//! each rule (`BreaksBlock`), each read where what it speaks of breaks no rule of an earlier phase. `register_outputs`,
//! `header_output` and `completed_output` give the files that are written of a unit.
//!
//! `block_outputs_mean` says what these files mean: each register text stands for a module that acts as its interface, the header's
//! constants are the modules', and the completed description reads back as the description and in place of its source gives the same
//! files. Nothing is known here of the command line, of folders or of stores. Not promised: that memory is found.
#![tactic(auto)]

mod block;
mod laws;
mod outputs;
mod texts;
mod unit;

pub use block::laid_block;
pub use laws::{block_outputs_mean, one_block_or_none};
pub use outputs::{completed_output, header_output, put_block_outputs, register_outputs};
pub use texts::{BlockTexts, block_texts};
pub use unit::{BlockUnit, read_block};
