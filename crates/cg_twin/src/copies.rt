//! Copies that equal their sources.

ghost use Rattle.std.specs.Prelude.{◌≡◌, IfOk};

use cg_base::{List, Memory, Text};
use cg_desc::{NodeDesc, XbarDesc};
use std::alloc::Global;

fn copy_node(alloc: Global, node: &NodeDesc) -> Result<NodeDesc, Memory>
    ensures { IfOk result (λ copy. copy ≡ node.now) }
{
    Ok(NodeDesc {
        name: Text::of(alloc, node.name.as_str())?,
        host: node.host,
        xbar: node.xbar,
        clock: Text::of(alloc, node.clock.as_str())?,
        ranges: List::of(alloc, node.ranges.as_slice())?,
        to: List::of(alloc, node.to.as_slice())?,
        at: node.at,
    })
}

fn copy_nodes(alloc: Global, nodes: &[NodeDesc]) -> Result<List<NodeDesc>, Memory>
    ensures { IfOk result (λ copies. copies ≡ nodes.now) }
{
    let mut copies = List::new(alloc);
    for node in nodes {
        copies.push(copy_node(alloc, node)?)?;
    }
    Ok(copies)
}

/// A description that equals this one.
pub fn copy_xbar(alloc: Global, xbar: &XbarDesc) -> Result<XbarDesc, Memory>
    ensures { IfOk result (λ copy. copy ≡ xbar.now) }
{
    Ok(XbarDesc {
        file: xbar.file,
        name: Text::of(alloc, xbar.name.as_str())?,
        clock: Text::of(alloc, xbar.clock.as_str())?,
        nodes: copy_nodes(alloc, xbar.nodes.as_slice())?,
        at: xbar.at,
    })
}
