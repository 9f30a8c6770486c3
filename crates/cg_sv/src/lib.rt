//! The subset of SystemVerilog (IEEE 1800-2017) in which chipgen writes hardware: its trees, and their text.
//!
//! The types of the crate's root are the trees of modules. Contracts see them through the views of `specs/Views`:
//! `module_of` gives the tree of the grammar for which a value stands, without where it lies in memory. The definitions
//! of trees, grammar, layout and meaning are those of `cg_svspec`, which this crate passes on.
//!
//! `print` gives the text of a printable module in the one layout that is used, and this text stands for just that
//! module. `names_differ` gives the first name that a module declares twice, in text order. `make` has makers of
//! expressions, ports and entries, each with what its result stands for.
//!
//! Not promised: that a module is well formed (widths, drivers, declared nets), and that any other tool for
//! SystemVerilog accepts its text. `Memory` may be answered at any call that allocates.
#![tactic(auto)]

mod entries;
mod expression;
mod fault;
mod layout;
pub mod make;
mod names;
mod tree;

pub use fault::SvRegFault;
pub use layout::print;
pub use names::{first_repeat, names_differ};
pub use tree::{Conn, Entry, Expr, Module, Param, Port};
