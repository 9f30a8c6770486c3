//! Completed descriptions: of blocks, by `cg_blkdone`, and of tops, for tools to read (OpenTitan Top Generation Tool, `gen.hjson`).
//!
//! `done_top` writes the tree of a top as JSON text with a line for each member and element. What the top's keys have is there in its
//! plain form; absent keys with a default are added, but for whole objects that may be missing; unknown keys stay. Members stand in
//! the order of their keys' bytes. Its contract says what the text reads back as, by the grammar of documents. `done_block` is
//! passed on. The laws below say that the text reads back as it, and that it describes the same top, breaks no rule on keys and values,
//! and is complete itself.
//!
//! Not promised: that memory is found, or that comments and the order of members stay.
#![tactic(auto)]

ghost use Rattle.cg_done.specs.Completed.{CompletedTopIsSame, CompletedTopIsSound, CompletedTopReadsBack};

mod bases;
mod lists;
mod sections;
mod top;
mod values;

pub use cg_blkdone::done_block;
pub use top::done_top;

/// The text of a top's completed description reads back as it.
pub fn completed_top_reads_back()
    ensures { CompletedTopReadsBack }
{}

/// The tree of a top's completed description describes the same top but for places, and completing it changes nothing.
pub fn completed_top_is_same()
    ensures { CompletedTopIsSame }
{}

/// The tree of a top's completed description breaks no rule on keys and values.
pub fn completed_top_is_sound()
    ensures { CompletedTopIsSound }
{}
