//! From the bytes of a file to the tree of its document, whichever file of a build it is.
//!
//! A build reads one file or many. Each is seen as its number among them, how many bytes the files before it have, and what the
//! store gave for it (`File`). `tree_of` gives the tree of a file's document, or the first of all that the file breaks before there is
//! a tree: that it is absent, too large, not UTF-8, no document or too deep. Each of these is a fact (`BreaksFile`), and the first is
//! the least by the order of faults.
//!
//! Nothing is known here of what the document describes, and nothing of the command line. Not promised: that memory is found.
#![tactic(auto)]

mod file;
mod laws;

pub use file::{LIMIT, LIMIT_OF_ALL, absent_file, large_file, tree_of};
pub use laws::a_file_has_one_tree;
