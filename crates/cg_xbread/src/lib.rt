//! The reader of crossbars: from the tree of a document to the description of a crossbar (OpenTitan Crossbar Tool).
//!
//! `xbar` judges first keys, kinds and names, and then, where none of these rules is broken, nodes and connections. It gives
//! the description where nothing is broken, and else the first of all that is, exactly. What is broken is defined rule by rule
//! over the tree, apart from the order in which the code looks; unknown keys are read past, and where a key stands twice the
//! first counts. A description that it gives is valid. Ranges are read as they are written, those of hosts too.
//!
//! Not promised: that memory is found, and anything of the shape of ranges, of those that share addresses, of what a node
//! stands for, and of the name under which a chip lists the crossbar, which other layers judge.
#![tactic(auto)]

mod connections;
mod described;
mod ends;
mod keys;
mod names;
mod nodes;
mod reading;
mod tables;
mod written;

pub use reading::xbar;
pub use written::WrittenNode;
