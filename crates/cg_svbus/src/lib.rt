//! The writer of tops' modules, and of crossbars' modules by `cg_svxbar` (OpenTitan Top Generation Tool and Crossbar Tool).
//!
//! `top_module` makes the module of a merged top from its numbers of interrupts and alerts, its ties of clocks and resets, and
//! its pins: an instance for each block and each crossbar, with a link for each node. `top_names` has the lists of names in
//! which none may stand twice. A top in which a name would stand twice is refused, with the first such name of the first such
//! list, exactly where one repeats.
//!
//! The module is the one of `cg_topspec`, port by port and entry by entry; each file here makes the lists of one group, and
//! each function adds the list of one definition. Laws of `cg_topspec` say that such a module is well formed and what it means. Not
//! promised here: the module's text, which `cg_sv` prints; what stands inside FIFOs and sockets; names of a top's header.
#![tactic(auto)]

mod top;
mod top_assigns;
mod top_bits;
mod top_blocks;
mod top_faces;
mod top_instances;
mod top_links;
mod top_lists;
mod top_nodes;
mod top_ports;
mod top_wires;

pub use cg_svxbar::{xbar_module, xbar_names};
pub use top::{top_module, top_names};
pub use top_lists::NameList;
