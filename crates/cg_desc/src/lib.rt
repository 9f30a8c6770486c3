//! The plain data of descriptions, and the faults that refuse them.
//!
//! Every layer that reads or checks a description speaks of the data of this crate. All fields
//! are public, and no value of a data type is refused here: whether one is valid is said by the
//! layer that makes it. A description that breaks a rule is refused by a `Fault`, which names
//! the rule, the file and the place. Want of memory is always told apart from it.
//!
//! Its specs have the definitions that several layers cite: the access table, and the step of a
//! register block in one clock over a target, which knows nothing of the text that is written.
#![tactic(auto)]

mod address;
mod base;
mod block;
mod crossbar;
mod fault;
mod fault_line;
mod place;
mod top;

pub use address::{Place, each_address_has_one_target};
pub use base::is_meant;
pub use block::{
    AlertDesc, BlockDesc, ClockDesc, FaceDesc, FaceItems, FieldDesc, HostFace, HwAccess, IntrDesc,
    IoDesc, IoDir, Item, LaidBlock, LaidFace, LaidRow, MultiDesc, RegDesc, SwAccess, WindowDesc,
    Written,
};
pub use crossbar::{NodeDesc, NodeRanges, Range, XbarDesc};
pub use fault::{DescFault, Fault, faults_are_ordered};
pub use fault_line::fault_text;
pub use place::At;
pub use top::{
    FaceBase, InstDesc, Joint, MergedTop, NamePair, NodeEnd, SignalDesc, SpaceBase, SpaceDesc,
    TopDesc, XbarEnds, XbarUse,
};

#[cfg(test)]
mod tests;
