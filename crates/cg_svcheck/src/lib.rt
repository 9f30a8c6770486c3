//! Whether a module of the subset of SystemVerilog (IEEE 1800-2017) is well formed, and whether it is a register module.
//!
//! `well_formed` is true exactly where `cg_svspec`'s `WellFormed` holds of the tree for which the module stands, `is_reg`
//! exactly where `IsRegister` does, and `is_printable` exactly where `IsPrintable` does, at any module whatever. Each of
//! them takes no memory, and none goes further than 128 levels down an expression: what is deeper is not printable, and
//! is not looked at again.
//!
//! `is_well_formed` decides the same as `well_formed`, over tables of names: its time grows with the size of the module, and
//! `Memory` may be answered.
//!
//! In `specs/` stand tests that compute, one for each fact, which the private functions follow; `proofs/` shows that each
//! decides its fact.
//!
//! Not promised: speed of `well_formed`, whose time grows with the square of the module.
#![tactic(auto)]

mod differing;
mod drivers;
mod fitting;
mod forms;
mod judged;
mod known;
mod lists;
mod nets;
mod printing;
mod registers;
mod sets;
mod whole;
mod widths;

pub use judged::is_well_formed;
pub use printing::is_printable;
pub use registers::is_reg;
pub use whole::well_formed;
