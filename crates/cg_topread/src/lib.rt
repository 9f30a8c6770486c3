//! The reader of tops: from the tree of a document to the description of a top (OpenTitan Top Generation Tool).
//!
//! `top` judges keys, kinds, names and the lengths of lists. It gives the description where none of these rules is broken, and
//! else the first that is, exactly. What is broken is defined rule by rule over the tree, apart from the order in which the code
//! looks; unknown keys are read past, and where a key stands twice the first counts. A description that it gives is valid, and
//! what an object's members say stands in it in the order of their keys' bytes. `types_of` lists the types of a top's instances
//! in the order of their first use, the order in which a top's block files are taken.
//!
//! Not promised: that memory is found, and anything of what names stand for, as that a space is listed, that an instance's name
//! is new or that a port has a source, which other layers judge.
#![tactic(auto)]

mod bases;
mod described;
mod described_instances;
mod in_order;
mod instances;
mod keys;
mod lists;
mod reading;
mod sections;
mod sources;
mod tables;
mod types;

pub use in_order::members_stand_in_order;
pub use reading::top;
pub use types::{types_are_one, types_of};
