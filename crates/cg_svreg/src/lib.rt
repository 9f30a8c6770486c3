//! The writer of register modules: the hardware of a block's registers and windows, behind one device interface.
//!
//! `face_module` makes the module of an interface that is laid out, and `reg_module` that of a block's interface under its
//! own name. Rows are the registers and windows in the order of their offsets, with any kinds of fields, stored or
//! external, shadowed registers, gates and windows (OpenTitan Register Tool). A module that would declare a name twice is refused, with
//! the first such name, exactly where one repeats.
//!
//! The module is the one of `cg_regspec`, port by port and entry by entry; each file here makes the lists of one group,
//! and each function adds the list of one definition. By the law of `cg_regspec` such a module is well formed, and acts as
//! the interface's register block. Not promised here: the module's text, which `cg_sv` prints, and that the
//! module's own name differs from other modules'.
#![tactic(auto)]

mod access;
mod answer;
mod fields;
mod gates;
mod hits;
mod module;
mod nets;
mod parts;
mod ports;
mod refusals;
mod rows;
mod shadows;
mod states;
mod windows;
mod words;

pub use module::{face_module, reg_module};
