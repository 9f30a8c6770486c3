//! The links of a top's nodes, by the names of their nets.

ghost use Rattle.std.specs.Prelude.{◌≡◌, ◌++◌, IfOk, find, map, ◌&&◌, not};
ghost use Rattle.std.specs.Option.{option_map};
ghost use Rattle.cg_svspec.specs.Links.{spelled};
ghost use Rattle.cg_svbus.specs.TopViewed.{node_id_of};
ghost use Rattle.cg_svxbar.specs.Viewed as viewed;
ghost use Rattle.cg_topspec.specs.Nets.{link_base, with_ends, own_link, link_of};
ghost use Rattle.cg_topspec.specs.Top.{outer_device, is_host, end_of, is_crossbar, is_device_face, is_host_face, all_nodes, device_node, host_node};

use crate::top_nodes::{TopNode, crossbar_name, is_host, node_end, node_name, nodes_in};
use cg_base::{Memory, Text};
use cg_desc::{MergedTop, NodeEnd};
use cg_svxbar::{Link, spelled};
use std::alloc::Global;

/// What the names of a node's nets begin with.
fn link_base(alloc: Global, top: &MergedTop, id: TopNode) -> Result<Text, Memory>
    ensures { IfOk result (λ base. base ≡ link_base top.now (node_id_of id)) }
{
    let xbar = crossbar_name(top, id.xbar);
    let node = spelled_name(alloc, node_name(top, id))?;
    let base = if is_host(top, id) {
        format!(in alloc; "x_{xbar}_h_{node}")?
    } else {
        format!(in alloc; "x_{xbar}_d_{node}")?
    };
    Ok(Text::from_string(base))
}

/// A name as it stands in nets.
#[tactic(auto, using(crate::proofs::Spellings::spelled_is))]
pub fn spelled_name(alloc: Global, name: &str) -> Result<Text, Memory>
    ensures { IfOk result (λ text. text ≡ spelled name.now) }
{
    let text = spelled(alloc, name)?;
    Ok(text)
}

/// The link whose names begin so.
fn with_ends(alloc: Global, base: &str) -> Result<Link, Memory>
    ensures { IfOk result (λ l. viewed.link_of l ≡ with_ends base.now) }
{
    let request = format!(in alloc; "{base}_req")?;
    let response = format!(in alloc; "{base}_rsp")?;
    Ok(Link {
        request: Text::from_string(request),
        response: Text::from_string(response),
    })
}

/// A node's own link.
#[tactic(auto, unfolding(cg_topspec::specs::Nets::own_link))]
pub fn own_link(alloc: Global, top: &MergedTop, id: TopNode) -> Result<Link, Memory>
    ensures { IfOk result (λ l. viewed.link_of l ≡ own_link top.now (node_id_of id)) }
{
    let base = link_base(alloc, top, id)?;
    let link = with_ends(alloc, base.as_str())?;
    Ok(link)
}

/// The first device of the crossbar `outer` that stands for the crossbar `inner`.
fn outer_device(
    alloc: Global,
    top: &MergedTop,
    outer: usize,
    inner: usize,
) -> Result<Option<TopNode>, Memory>
    ensures { IfOk result (λ found. option_map node_id_of found ≡ outer_device top.now outer inner) }
{
    let among = nodes_in(alloc, top, outer)?;
    let found = device_of_crossbar(top, among.as_slice(), inner);
    Ok(found)
}

/// The first device of these that stands for a crossbar.
fn device_of_crossbar(top: &MergedTop, among: &[TopNode], xbar: usize) -> Option<TopNode>
    ensures { option_map node_id_of result ≡ find (λ n. not (is_host top.now n) && is_crossbar xbar (end_of top.now n)) (map node_id_of among.now) }
{
    for id in among {
        if !is_host(top, *id) && is_crossbar(node_end(top, *id), xbar) {
            return Some(*id);
        }
    }
    None
}

/// The first of these devices that stands for this device interface of an instance.
fn first_device_node(
    top: &MergedTop,
    among: &[TopNode],
    inst: usize,
    face: usize,
) -> Option<TopNode>
    ensures { option_map node_id_of result ≡ find (λ n. not (is_host top.now n) && is_device_face inst face (end_of top.now n)) (map node_id_of among.now) }
{
    for id in among {
        if !is_host(top, *id) && is_device_face(node_end(top, *id), inst, face) {
            return Some(*id);
        }
    }
    None
}

/// The first of these hosts that stands for this host interface of an instance.
fn first_host_node(top: &MergedTop, among: &[TopNode], inst: usize, face: usize) -> Option<TopNode>
    ensures { option_map node_id_of result ≡ find (λ n. is_host top.now n && is_host_face inst face (end_of top.now n)) (map node_id_of among.now) }
{
    for id in among {
        if is_host(top, *id) && is_host_face(node_end(top, *id), inst, face) {
            return Some(*id);
        }
    }
    None
}

/// The first device of a top that stands for this device interface of an instance, where these are all nodes.
pub fn device_node(top: &MergedTop, nodes: &[TopNode], inst: usize, face: usize) -> Option<TopNode>
    requires { map node_id_of nodes.now ≡ all_nodes top.now }
    ensures { option_map node_id_of result ≡ device_node top.now inst face }
{
    first_device_node(top, nodes, inst, face)
}

/// The first host of a top that stands for this host interface of an instance, where these are all nodes.
pub fn host_node(top: &MergedTop, nodes: &[TopNode], inst: usize, face: usize) -> Option<TopNode>
    requires { map node_id_of nodes.now ≡ all_nodes top.now }
    ensures { option_map node_id_of result ≡ host_node top.now inst face }
{
    first_host_node(top, nodes, inst, face)
}

/// Whether the end is this crossbar.
fn is_crossbar(end: NodeEnd, number: usize) -> bool
    ensures { result ≡ is_crossbar number end }
{
    match end {
        NodeEnd::Xbar { xbar } => xbar as usize == number,
        NodeEnd::Face { .. } | NodeEnd::Host { .. } | NodeEnd::Outside => false,
    }
}

/// Whether the end is this device interface of this instance.
fn is_device_face(end: NodeEnd, number: usize, of_face: usize) -> bool
    ensures { result ≡ is_device_face number of_face end }
{
    match end {
        NodeEnd::Face { inst, face } => inst as usize == number && face as usize == of_face,
        NodeEnd::Xbar { .. } | NodeEnd::Host { .. } | NodeEnd::Outside => false,
    }
}

/// Whether the end is this host interface of this instance.
fn is_host_face(end: NodeEnd, number: usize, of_face: usize) -> bool
    ensures { result ≡ is_host_face number of_face end }
{
    match end {
        NodeEnd::Host { inst, face } => inst as usize == number && face as usize == of_face,
        NodeEnd::Xbar { .. } | NodeEnd::Face { .. } | NodeEnd::Outside => false,
    }
}

/// The link that the instance of its crossbar has for a node: a host that stands for an outer crossbar has the link of that one's
/// device, and any other node has its own.
pub fn crossbar_link(alloc: Global, top: &MergedTop, id: TopNode) -> Result<Link, Memory>
    ensures { IfOk result (λ l. viewed.link_of l ≡ link_of top.now (node_id_of id)) }
{
    if is_host(top, id) {
        if let NodeEnd::Xbar { xbar } = node_end(top, id) {
            let device = outer_device(alloc, top, xbar as usize, id.xbar)?;
            let link = own_link(alloc, top, device.unwrap_or(id))?;
            return Ok(link);
        }
    }
    let link = own_link(alloc, top, id)?;
    Ok(link)
}
