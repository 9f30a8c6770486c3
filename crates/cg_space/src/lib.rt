//! The address space of a top: which ranges its devices have, which of them are wrong, and what each address is (OpenTitan Top
//! Generation Tool, Crossbar Tool).
//!
//! `check` takes a top joined with its blocks and crossbars, or one crossbar alone, and refuses it exactly where crossbars are nested in
//! a circle, a device has no range or one of a wrong shape, or two ranges share an address for one host; it tells the first of all that
//! is broken. `ranges` gives the ranges of each device of a crossbar, `rows` the address map as a flat list, and `find` looks an address
//! up in it; each address is one place alone for a host. A nested crossbar's device has the ranges of the devices behind it, at the same
//! addresses, so it is judged by sets of addresses: such a list could double at each level, and is never written out where ranges are
//! shared.
//!
//! Not promised: that memory is found.
#![tactic(auto)]

mod behind;
mod checked;
mod coverage;
mod graph;
mod laws;
mod leaves;
mod links;
mod lookup;
mod map;
mod node_ranges;
mod nodes;
mod region;
mod row;
mod shared;
mod table;
mod told;
mod verdict;
mod verdicts;

pub use checked::check;
pub use laws::{each_address_is_one_place, rows_are_the_map};
pub use lookup::find;
pub use map::rows;
pub use node_ranges::ranges;
pub use row::{HostId, Row};
pub use shared::first_shared;
