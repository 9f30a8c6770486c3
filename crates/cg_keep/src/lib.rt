//! A top's files by their names, and what is built of them.
//!
//! A `Keep` holds files in memory, of which one is a top's. `wanted` names the files of the top's build, in their order: the top's own,
//! and those of the crossbars and the blocks that it names. `source` gives what they describe together. `rebuild` builds the files as they are: it keeps all that is written of
//! them, which `last_built` gives, or answers the first of all that they break, exactly, and a build that is refused leaves the last one
//! that was not. Whatever was put, taken away and built before, the answer is that of a build from nothing.
//!
//! What files break and what is built of them are definitions over files alone (`specs/Files`); the laws say that both are one. Nothing
//! is known here of the command line or of stores. Not promised: that memory is found, or time.
#![tactic(auto)]

ghost use Rattle.cg_keep.specs.Laws.{BuiltBreaksNothing, BuiltIsOne, BuiltNamesDiffer, WantedAreOne, WhatIsBuiltMeans};

mod build;
mod keep;
mod names;

use cg_chip::{files_are_of_one_build, what_is_written_means};
pub use keep::{Built, Keep, KeepFault};

/// One list of names is wanted, and one list of outputs is built, with names that differ, where nothing is broken.
pub fn a_build_is_one()
    ensures wanted { WantedAreOne }
    ensures built { BuiltIsOne }
    ensures unbroken { BuiltBreaksNothing }
    ensures names { BuiltNamesDiffer }
{
    files_are_of_one_build();
}

/// What is built has its meaning: every access of every host reaches what the flat address map says.
pub fn what_is_built_means()
    ensures { WhatIsBuiltMeans }
{
    what_is_written_means();
}
