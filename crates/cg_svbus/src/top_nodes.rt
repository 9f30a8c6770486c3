//! The crossbars and nodes of a top by their numbers.

ghost use Rattle.std.specs.Prelude.{◌≡◌, ◌++◌, IfSome, IfNone, IfOk, OnOk, filter, length, map};
ghost use Rattle.cg_busspec.specs.Crossbar.{no_node};
ghost use Rattle.cg_svbus.specs.TopViewed.{node_id_of, is_kind};
ghost use Rattle.cg_topspec.specs.Top.{counting, node_id, crossbar_of, no_crossbar, node_of, end_of, is_host, nodes_in, all_nodes, ordered_in, ordered};

use cg_base::Memory;
use cg_desc::{MergedTop, NodeDesc, NodeEnd, XbarDesc};
use cg_svxbar::node;
use std::alloc::Global;

/// A node of a top: the number of its crossbar, and its own there.
#[derive(Clone, Copy)]
pub struct TopNode {
    pub xbar: usize,
    pub node: usize,
}

/// The node with these numbers.
fn node_id(xbar: usize, node: usize) -> TopNode
    ensures { node_id_of result ≡ node_id xbar node }
{
    TopNode { xbar, node }
}

/// So many numbers, from 0 on.
#[tactic(auto, using(crate::proofs::Countings::countings))]
pub fn numbers(alloc: Global, count: usize) -> Result<Vec<usize>, Memory>
    ensures { IfOk result (λ numbers. numbers.items ≡ counting 0 count) }
{
    let mut numbers = Vec::new(alloc);
    for number in 0..count {
        numbers.push(number)?;
    }
    Ok(numbers)
}

/// The crossbar of this number, if there is one.
#[tactic(auto, using(crate::proofs::Countings::lookups))]
pub fn crossbar(top: &MergedTop, number: usize) -> Option<&XbarDesc>
    ensures some { IfSome result (λ x. x.now ≡ crossbar_of top.entry.now number) }
    ensures none { IfNone result (crossbar_of top.entry.now number ≡ no_crossbar) }
{
    top.xbars.as_slice().get(number)
}

/// Its name; empty where there is no such crossbar.
pub fn crossbar_name(top: &MergedTop, number: usize) -> &str
    ensures { result.now ≡ (crossbar_of top.entry.now number).name }
{
    match crossbar(top, number) {
        None => "",
        Some(xbar) => xbar.name.as_str(),
    }
}

/// How many nodes it has.
fn node_count(top: &MergedTop, number: usize) -> usize
    ensures { result ≡ length (crossbar_of top.now number).nodes }
{
    match crossbar(top, number) {
        None => 0,
        Some(xbar) => xbar.nodes.len(),
    }
}

/// A node, if there is one with these numbers.
fn top_node(top: &MergedTop, id: TopNode) -> Option<&NodeDesc>
    ensures some { IfSome result (λ n. n.now ≡ node_of top.entry.now (node_id_of id)) }
    ensures none { IfNone result (node_of top.entry.now (node_id_of id) ≡ no_node) }
{
    match crossbar(top, id.xbar) {
        None => None,
        Some(xbar) => node(xbar, id.node),
    }
}

/// Whether a node is a host.
pub fn is_host(top: &MergedTop, id: TopNode) -> bool
    ensures { result ≡ is_host top.now (node_id_of id) }
{
    match top_node(top, id) {
        None => false,
        Some(node) => node.host,
    }
}

/// The name of a node.
pub fn node_name(top: &MergedTop, id: TopNode) -> &str
    ensures { result.now ≡ (node_of top.entry.now (node_id_of id)).name }
{
    match top_node(top, id) {
        None => "",
        Some(node) => node.name.as_str(),
    }
}

/// What a node stands for.
#[tactic(auto, using(crate::proofs::Countings::lookups))]
pub fn node_end(top: &MergedTop, id: TopNode) -> NodeEnd
    ensures { result ≡ end_of top.now (node_id_of id) }
{
    match top.ends.as_slice().get(id.xbar) {
        None => NodeEnd::Outside,
        Some(ends) => match ends.ends.as_slice().get(id.node) {
            None => NodeEnd::Outside,
            Some(end) => *end,
        },
    }
}

/// Adds the nodes of a crossbar, as they are numbered.
fn add_nodes(
    alloc: Global,
    nodes: &mut Vec<TopNode>,
    top: &MergedTop,
    xbar: usize,
) -> Result<(), Memory>
    ensures { OnOk result (map node_id_of nodes.new.items ≡ map node_id_of nodes.old.items ++ nodes_in top.now xbar) }
{
    let numbers = numbers(alloc, node_count(top, xbar))?;
    for number in numbers.iter() {
        nodes.push(node_id(xbar, *number))?;
    }
    Ok(())
}

/// The nodes of a crossbar.
pub fn nodes_in(alloc: Global, top: &MergedTop, xbar: usize) -> Result<Vec<TopNode>, Memory>
    ensures { IfOk result (λ nodes. map node_id_of nodes.items ≡ nodes_in top.now xbar) }
{
    let mut nodes = Vec::new(alloc);
    add_nodes(alloc, &mut nodes, top, xbar)?;
    Ok(nodes)
}

/// Adds those of the nodes that are hosts, or those that are devices.
fn add_kind(
    nodes: &mut Vec<TopNode>,
    top: &MergedTop,
    among: &[TopNode],
    host: bool,
) -> Result<(), Memory>
    ensures { OnOk result (map node_id_of nodes.new.items ≡ map node_id_of nodes.old.items ++ filter (is_kind top.now host) (map node_id_of among.now)) }
{
    for id in among {
        if is_host(top, *id) == host {
            nodes.push(*id)?;
        }
    }
    Ok(())
}

/// Adds the nodes of a crossbar, its hosts before its devices.
fn add_ordered(
    alloc: Global,
    nodes: &mut Vec<TopNode>,
    top: &MergedTop,
    xbar: usize,
) -> Result<(), Memory>
    ensures { OnOk result (map node_id_of nodes.new.items ≡ map node_id_of nodes.old.items ++ ordered_in top.now xbar) }
{
    let among = nodes_in(alloc, top, xbar)?;
    add_kind(nodes, top, among.as_slice(), true)?;
    add_kind(nodes, top, among.as_slice(), false)?;
    Ok(())
}

/// The nodes of a crossbar, its hosts before its devices.
pub fn ordered_in(alloc: Global, top: &MergedTop, xbar: usize) -> Result<Vec<TopNode>, Memory>
    ensures { IfOk result (λ nodes. map node_id_of nodes.items ≡ ordered_in top.now xbar) }
{
    let mut nodes = Vec::new(alloc);
    add_ordered(alloc, &mut nodes, top, xbar)?;
    Ok(nodes)
}

/// The nodes of all crossbars, the hosts of each before its devices.
pub fn ordered(alloc: Global, top: &MergedTop) -> Result<Vec<TopNode>, Memory>
    ensures { IfOk result (λ nodes. map node_id_of nodes.items ≡ ordered top.now) }
{
    let xbars = numbers(alloc, top.xbars.len())?;
    let mut nodes = Vec::new(alloc);
    for xbar in xbars.iter() {
        add_ordered(alloc, &mut nodes, top, *xbar)?;
    }
    Ok(nodes)
}

/// The nodes of all crossbars, as they are numbered.
pub fn all_nodes(alloc: Global, top: &MergedTop) -> Result<Vec<TopNode>, Memory>
    ensures { IfOk result (λ nodes. map node_id_of nodes.items ≡ all_nodes top.now) }
{
    let xbars = numbers(alloc, top.xbars.len())?;
    let mut nodes = Vec::new(alloc);
    for xbar in xbars.iter() {
        add_nodes(alloc, &mut nodes, top, *xbar)?;
    }
    Ok(nodes)
}
