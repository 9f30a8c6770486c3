//! The reader of descriptions: Hjson documents, with the exact first syntax fault.
//!
//! `read` takes each character once, with a stack of its own, and gives the tree of the text exactly where the text is a document of
//! the grammar in `cg_docspec` and no object or list opens at depth 65. Else it names the first fault at its exact byte, line and
//! column: an opener of depth 65, or the end of the longest prefix that begins some document. Both ways are clauses: it refuses
//! neither too much nor too little. A machine over characters is the way of its proof, and no clause speaks of it.
//!
//! `to_json` gives the tree's JSON value, with its keys and values and without its places, where no object has a key twice.
//!
//! Not promised: that memory is found. Rules on keys and values are not read here; a text that is not UTF-8 is no `&str`.
#![tactic(auto)]

mod characters;
mod closing;
mod comment;
mod json_value;
mod lines;
mod numeral;
mod place;
mod plain;
mod quoted;
mod reader;
mod stack;
mod state;
mod staying;
mod steps;
mod token;
mod tree;
mod turning;

pub use json_value::{members_are_kept, to_json};
pub use place::{START, place_behind};
pub use reader::{HjsonFault, read};
pub use tree::{Kind, Member, Tree};
