//! A top joined with its crossbars and blocks (OpenTitan Top Generation Tool).
//!
//! `merge` takes a valid top with its files, each valid, and answers the top with the number of each instance's block and with what each
//! node of each crossbar stands for: an interface of an instance, another crossbar, or nothing in the top. Files that break no rule on one
//! another are merged, unchanged, and fit one another; else the answer is the first fault of all files, exactly. `merge_one` takes one
//! crossbar without a top: there is no instance, and every node is outside.
//!
//! A design is merged in one way (`merged_tops_are_one`).
//!
//! What is broken is defined rule by rule over the files, apart from the order in which the code looks: names of instances and crossbars,
//! address spaces and bases in the top's own file, and the nodes of each crossbar.
//!
//! Not promised: that memory is found, and anything of the shape of ranges, of those that share addresses, and of crossbars that
//! nest in a circle, which other layers judge.
#![tactic(auto)]

mod ends;
mod faults;
mod instances;
mod interfaces;
mod kinds;
mod laws;
mod merging;
mod nodes;
mod one;
mod spelling;
mod top_rules;

pub use faults::earlier_fault;
pub use laws::merged_tops_are_one;
pub use merging::merge;
pub use one::merge_one;
