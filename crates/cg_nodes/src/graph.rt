//! A crossbar with its parts and its clocks.

ghost use Rattle.std.specs.Prelude.{◌≡◌, ◌<◌, ◌^◌, IfOk, length};
ghost use Rattle.cg_nodes.specs.Parts.{IsParts};
ghost use Rattle.cg_nodes.specs.Clocks.{IsClocks};

use crate::clocks::clocks_of;
use crate::parts::{Part, parts_of};
use cg_base::{List, Memory, Text};
use cg_desc::XbarDesc;
use cg_twin::copy_xbar;
use std::alloc::Global;

/// A crossbar: its description, its parts in the order in which they are written, and its clocks in the order of first use.
#[derive(Drop)]
pub struct Graph {
    pub desc: XbarDesc,
    pub parts: List<Part>,
    pub clocks: List<Text>,
}

/// The parts and the clocks of a crossbar, with a copy of its description.
pub fn nodes(alloc: Global, xbar: &XbarDesc) -> Result<Graph, Memory>
    requires { length xbar.now.nodes < 2 ^ 32 }
    ensures desc { IfOk result (λ graph. graph.desc ≡ xbar.now) }
    ensures parts { IfOk result (λ graph. IsParts xbar.now graph.parts) }
    ensures clocks { IfOk result (λ graph. IsClocks xbar.now graph.clocks) }
{
    let parts = parts_of(alloc, xbar)?;
    let clocks = clocks_of(alloc, xbar)?;
    let desc = copy_xbar(alloc, xbar)?;
    Ok(Graph {
        desc,
        parts,
        clocks,
    })
}
