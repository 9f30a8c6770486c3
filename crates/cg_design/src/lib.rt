//! The files of a top: from the bytes of each to the top, the crossbar or the block that it describes, and to the top that is merged of all.
//!
//! A top names the files of its crossbars and of its blocks. `read_top`, `read_crossbar` and `read_block` each judge one of these files,
//! whichever file of the build it is: they give what it describes, or the first of all that it breaks up to there. A crossbar's and a
//! block's own name must be the one under which the top has the file, which its reader cannot know; a name that is not is among what
//! the file breaks, at its place among the rest. What is broken is a fact for each rule (`BreaksTopFile`, `BreaksCrossbarFile`,
//! `BreaksBlockFile`), read where what it speaks of breaks no rule of an earlier phase. What is described is valid.
//!
//! `design` judges all of them together: it gives the merged top, whose ranges are apart, or the first of all that the files break, each by
//! itself, together, and in their ranges (`Violates`). The laws below say that files describe one top at most.
//!
//! Nothing is known here of the command line, of folders or of stores, and nothing of what is written. Not promised: that memory is
//! found.
#![tactic(auto)]

mod block;
mod blocks;
mod crossbar;
mod crossbars;
mod file;
mod name;
mod others;
mod reading;
mod together;
mod top;

ghost use Rattle.cg_design.specs.Laws.{DesignIsOne, MergedBreaksNothing, MergedIsOne, TopIsOne};

pub use block::{BlockSource, read_block};
pub use crossbar::read_crossbar;
pub use together::{DesignSource, design};
pub use top::{TopSource, read_top};

/// Files describe one top at most, one design, and one merged top, and where its ranges are apart they break nothing up to there.
pub fn files_are_of_one_top()
    ensures top { TopIsOne }
    ensures design { DesignIsOne }
    ensures merged { MergedIsOne }
    ensures unbroken { MergedBreaksNothing }
{}
