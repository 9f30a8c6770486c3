//! The reader of blocks: from the tree of a document to the description of a block (OpenTitan Register Tool).
//!
//! `block` judges first keys, kinds and the profile, and then, where none of these rules is broken, bits, reset values and
//! counts. It gives the description where nothing is broken, and else the first of all that is, exactly. What is broken is
//! defined rule by rule over the tree, apart from the order in which the code looks; unknown keys are read past, and where a
//! key stands twice the first counts. A description that it gives is valid. The names, kinds and reset values that count for
//! the fields of a register are found by functions of their own, for other layers that speak of what is written.
//!
//! Not promised: that memory is found, and anything of names that come twice, of counts of items, and of offsets, which
//! later layers judge.
#![tactic(auto)]

mod bits;
mod described;
mod described_entries;
mod described_interfaces;
mod described_lists;
mod entry_keys;
mod entry_lists;
mod interface;
mod interfaces;
mod keys;
mod laws;
mod overlaps;
mod parameters;
mod profile;
mod raw;
mod read_entries;
mod read_fields;
mod reading;
mod shadowed;
mod shape;
mod tables;
mod values;

pub use described_entries::reset_of;
pub use laws::{fields_stand_in_order, shadowed_registers_are_plain, violations_are_listed};
pub use raw::{Bits, RawEntry, RawField, RawMultireg, RawRegister, RawWindow};
pub use read_entries::is_compact;
pub use read_fields::{Shared, is_true, register_reset, shared_of, written_fields};
pub use reading::block;
