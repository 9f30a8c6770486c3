//! The files that a build writes, in the order of their names.
//!
//! An output is a file's name without a folder, and its bytes. The outputs of a build stand in the order of the bytes of their names,
//! each once: `AreOutputs` says of a list that it has exactly the outputs that are meant, and that their names rise, so there is one
//! such list at most. `put_by_name` keeps a list in that order.
//!
//! Nothing is known here of folders, stores, or of what an output is of. Not promised: that memory is found.
#![tactic(auto)]

mod laws;
mod out_file;

pub use laws::outputs_are_one_list;
pub use out_file::{OutFile, put_by_name};
