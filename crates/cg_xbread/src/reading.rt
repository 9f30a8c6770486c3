//! Reading a crossbar.

ghost use Rattle.std.specs.Prelude.{IfOk};
ghost use Rattle.cg_desc.specs.Crossbar.{IsValidCrossbar};
ghost use Rattle.cg_xbread.specs.Reads.{Reads};

use crate::described::describe_crossbar;
use crate::keys::first_in_keys;
use crate::nodes::first_in_node_rules;
use crate::written::{connections_of, nodes_of};
use cg_desc::{DescFault, XbarDesc};
use cg_finding::refusal;
use cg_hjson::Tree;
use std::alloc::Global;

/// Reads the description of a crossbar from the document that the file of this number holds.
///
/// A refusal names the first rule that the crossbar breaks: of those on keys, kinds and names, or where none of these is
/// broken of those on nodes and connections; the first is that at the earliest place, then that of the least number, then
/// that with the least name. A description is valid. `Memory` says nothing about the crossbar.
pub fn xbar(alloc: Global, tree: &Tree, file: u32) -> Result<XbarDesc, DescFault>
    ensures reads { Reads result file tree.now }
    ensures valid { IfOk result (λ xbar. IsValidCrossbar xbar) }
{
    if let Some(found) = first_in_keys(alloc, tree)? {
        return Err(refusal(alloc, found, file));
    }
    let nodes = nodes_of(alloc, tree)?;
    let connections = connections_of(tree);
    if let Some(found) = first_in_node_rules(alloc, nodes.as_slice(), connections)? {
        return Err(refusal(alloc, found, file));
    }
    Ok(describe_crossbar(alloc, tree, nodes.as_slice(), connections, file)?)
}
