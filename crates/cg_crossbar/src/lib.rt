//! A crossbar's unit: from the file of a crossbar to its description, and to the text that is written of it.
//!
//! `read_crossbar` reads the file of a crossbar, whichever file of a build it is, and gives its description, or the first of all that
//! the file breaks up to there (`BreaksCrossbar`). `crossbar_output` is the file that is written of a crossbar whose nodes have given
//! ranges. `read_alone` goes the whole way for a crossbar that stands alone, whose written ranges are those that count: it gives that
//! file, or the first of all that the crossbar's file breaks (`BreaksAlone`). What is broken is a fact for each rule, read where what
//! it speaks of breaks no rule of an earlier phase.
//!
//! `crossbar_output_means` says what the written text means: it stands for one module, of the crossbar's name, in which every request of
//! every host ends at the device that has its address, or in an error. Nothing is known here of the command line, of folders or of
//! stores. Not promised: that memory is found.
#![tactic(auto)]

mod alone;
mod description;
mod laws;
mod output;

pub use alone::read_alone;
pub use description::read_crossbar;
pub use laws::{crossbar_output_means, one_crossbar_or_none};
pub use output::crossbar_output;
