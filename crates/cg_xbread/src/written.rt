//! What is written of a crossbar's nodes and connections.

ghost use Rattle.std.specs.Prelude.{◌≡◌, IfOk, map};
ghost use Rattle.cg_xbread.specs.Written.{connections_of, is_host, node_name, nodes_of, text_of, written_node};

use cg_base::{List, Memory, Text};
use cg_desc::At;
use cg_hjson::{Member, Tree};
use cg_keys::{elements, members, object_at, place_at, text, text_at};
use std::alloc::Global;

/// A node as it is written: its name, whether it is a host, and the place of its name's value.
#[derive(Drop)]
pub struct WrittenNode {
    pub name: Text,
    pub host: bool,
    pub at: At,
}

#[tactic(auto, unfolding(crate::specs::Written::node_name))]
fn node_name(node: &Tree) -> &str
    ensures { result.now ≡ node_name node.now }
{
    text_at(members(node), "name").unwrap_or("")
}

#[tactic(auto, unfolding(crate::specs::Written::is_host))]
fn is_host(node: &Tree) -> bool
    ensures { result ≡ is_host node.now }
{
    match text_at(members(node), "type") {
        Some(word) => "host" == word,
        None => false,
    }
}

#[tactic(auto, unfolding(crate::specs::Written::written_node))]
pub(crate) fn written_node(alloc: Global, node: &Tree) -> Result<WrittenNode, Memory>
    ensures { IfOk result (λ written. written ≡ written_node node.now) }
{
    Ok(WrittenNode {
        name: Text::of(alloc, node_name(node))?,
        host: is_host(node),
        at: place_at(members(node), "name", node.at),
    })
}

fn written_nodes(alloc: Global, items: &[Tree]) -> Result<List<WrittenNode>, Memory>
    ensures { IfOk result (λ nodes. nodes ≡ map written_node items.now) }
{
    let mut nodes = List::new(alloc);
    for item in items {
        nodes.push(written_node(alloc, item)?)?;
    }
    Ok(nodes)
}

/// The nodes of a crossbar, in the order in which they are written.
#[tactic(auto, unfolding(crate::specs::Written::nodes_of))]
pub(crate) fn nodes_of(alloc: Global, tree: &Tree) -> Result<List<WrittenNode>, Memory>
    ensures { IfOk result (λ nodes. nodes ≡ nodes_of tree.now) }
{
    Ok(written_nodes(alloc, elements(members(tree), "nodes"))?)
}

/// The connections of a crossbar.
#[tactic(auto, unfolding(crate::specs::Written::connections_of))]
pub(crate) fn connections_of(tree: &Tree) -> &[Member]
    ensures { result.now ≡ connections_of tree.now }
{
    object_at(members(tree), "connections").unwrap_or(&[])
}

/// The name that an element of a connection's list is.
#[tactic(auto, unfolding(crate::specs::Written::text_of))]
pub(crate) fn text_of(element: &Tree) -> &str
    ensures { result.now ≡ text_of element.now }
{
    text(element).unwrap_or("")
}
