//! The writer of crossbars' modules: FIFOs and sockets between hosts and devices (OpenTitan Crossbar Tool, TL-UL bus).
//!
//! `xbar_module` makes the module of a crossbar from its graph and the ranges of its devices. A request of a host goes over a
//! FIFO where the host's clock is another, over a 1-to-N socket whose select compares the address with each device's ranges,
//! over an M-to-1 socket where more than one host connects to the device, and over a FIFO where the device's clock is
//! another. A module that would declare a name twice is refused, with the first such name, exactly where one repeats; `xbar_names` gives
//! the names that it would declare.
//!
//! The module is the one of `cg_busspec`, port by port and entry by entry; each file here makes the lists of one group, and
//! each function adds the list of one definition. By the law of `cg_busspec` such a module is well formed, and every request
//! of every host ends in it where the crossbar's description says. Not promised here: the module's text, which `cg_sv`
//! prints, and what stands inside FIFOs and sockets. Links, spelled and declared names, and powers of sizes are public for `cg_svbus`,
//! whose tops have them too.
#![tactic(auto)]

mod instances;
mod links;
mod module;
mod names;
mod nodes;
mod parts;
mod ports;
mod selects;
mod wires;

pub use links::{Link, named_link};
pub use module::xbar_module;
pub use names::{add_name, declared_names, xbar_names};
pub use nodes::{node, spelled};
pub use selects::power_of;
pub use wires::add_link;
