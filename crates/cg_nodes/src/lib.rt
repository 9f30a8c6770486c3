//! The parts of a crossbar, and its clocks (OpenTitan Crossbar Tool).
//!
//! `nodes` takes the description of a crossbar and gives it again, with the parts that a request passes and the clocks that
//! the crossbar is driven by. A FIFO stands exactly at each node whose clock is not the crossbar's, a 1-to-N socket behind
//! every host, and an M-to-1 socket before each device to which two hosts connect at least. Which parts there are is said
//! part by part, apart from the order in which they stand, which is said too; the laws say that there is one such list, and
//! which one it is. The same holds for the clocks, which come in the order in which they are first used.
//!
//! Not promised: that memory is found, and anything of ranges, of names and of what a node stands for.
#![tactic(auto)]

mod clocks;
mod graph;
mod laws;
mod parts;

pub use graph::{Graph, nodes};
pub use laws::{clocks_are_one, parts_are_one};
pub use parts::Part;
