//! Completed descriptions: a block's description with everything said, for tools to read (OpenTitan Register Tool, `gen.hjson`).
//!
//! `done_block` writes the tree of a block as JSON text with a line for each member and element. What the block's keys have is there
//! in its plain form: numbers, `true` and `false`, `bits` as `m:l`, reset values as numbers; absent keys with a default are added, and
//! unknown keys stay. Members stand in the order of their keys' bytes. Its contract says what the text reads back as, by the grammar
//! of documents; the laws below say that it describes the same block, breaks no rule on keys and values, and is complete itself.
//!
//! `number`, `text`, `with` and their like make JSON values of trees, for tops' descriptions too (`cg_done`).
//!
//! Not promised: that memory is found, or that comments and the order of members stay.
#![tactic(auto)]

ghost use Rattle.cg_blkdone.specs.Completed.{CompletedIsSame, CompletedIsSound, CompletedReadsBack};

mod block;
mod entries;
mod fields;
mod lists;
mod plain;
mod putting;

pub use block::{done_block, with_line_end};
pub use plain::{number, text};
pub use putting::{number_or_zero, said_with, with};

/// The text of a completed description reads back as it.
pub fn completed_reads_back()
    ensures { CompletedReadsBack }
{}

/// The tree of a completed description describes the same block but for places, and completing it changes nothing.
pub fn completed_is_same()
    ensures { CompletedIsSame }
{}

/// The tree of a completed description breaks no rule on keys and values.
pub fn completed_is_sound()
    ensures { CompletedIsSound }
{}
