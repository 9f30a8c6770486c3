//! What the nodes of a top's crossbars stand for.

ghost use Rattle.std.specs.Prelude.{◌≡◌, ◌&&◌, ◌<◌, ℕ, IfOk, IfSome, not, eqb, false, true, length, position};
ghost use Rattle.std.specs.List.{list_any};
ghost use Rattle.std.specs.Str.{bytes_eq};
ghost use Rattle.cg_desc.specs.Ends.{CrossbarIs, InstanceIs, StandsFor};
ghost use Rattle.cg_desc.specs.Merged.{design_of};
ghost use Rattle.cg_merge.specs.Checks.{AreRead};
ghost use Rattle.cg_merge.specs.NodeEnds.{AreAllEnds, AreEndsOf};
ghost use Rattle.cg_merge.specs.Nodes.{EndsIn, agrees, end_for, interface_of, is_node_for, is_partner, joins};

use crate::interfaces::{agrees, is_node_for};
use cg_base::{List, Memory};
use cg_desc::{InstDesc, LaidBlock, MergedTop, NodeDesc, NodeEnd, XbarDesc, XbarEnds, XbarUse};
use std::alloc::Global;

/// The largest number of an interface in a merged top.
const LAST_INTERFACE: usize = 0xffff_ffff;

/// The number of the first device interface of an instance of a block that a node names.
fn face_of(inst: &InstDesc, block: &LaidBlock, node: &NodeDesc) -> Option<usize>
    ensures { result ≡ position (λ face. is_node_for false inst.now.name (eqb (length block.now.faces) 1) face.name node.now) block.now.faces }
{
    let instance = inst.name.as_str();
    let is_sole = block.faces.len() == 1;
    block.faces.as_slice().iter().position(|face| is_node_for(
        false, instance, is_sole, &face.name, node,
    ))
}

/// The number of the first host interface of an instance of a block that a node names.
fn host_of(inst: &InstDesc, block: &LaidBlock, node: &NodeDesc) -> Option<usize>
    ensures { result ≡ position (λ face. is_node_for true inst.now.name (eqb (length block.now.desc.hosts) 1) face.name node.now) block.now.desc.hosts }
{
    let instance = inst.name.as_str();
    let is_sole = block.desc.hosts.len() == 1;
    block.desc.hosts.as_slice().iter().position(|face| is_node_for(
        true, instance, is_sole, &face.name, node,
    ))
}

/// Whether a node is a partner of a node in the crossbar of this name.
#[tactic(auto, unfolding(crate::specs::Nodes::is_partner))]
fn is_partner(outer: &str, node: &NodeDesc, partner: &NodeDesc) -> bool
    ensures { result ≡ is_partner outer.now node.now partner.now }
{
    if !partner.xbar {
        return false;
    }
    if !agrees(!node.host, partner.host) {
        return false;
    }
    partner.name.as_str() == outer
}

fn has_partner(outer: &str, node: &NodeDesc, nodes: &[NodeDesc]) -> bool
    ensures { result ≡ list_any (is_partner outer.now node.now) nodes.now }
{
    nodes.iter().any(|partner| is_partner(outer, node, partner))
}

/// Whether a node in the crossbar of this name names a crossbar that has a partner of it.
#[tactic(auto, unfolding(crate::specs::Nodes::joins))]
fn joins(outer: &str, node: &NodeDesc, inner: &XbarDesc) -> bool
    ensures { result ≡ joins outer.now node.now inner.now }
{
    if node.name.as_str() != inner.name.as_str() {
        return false;
    }
    has_partner(outer, node, inner.nodes.as_slice())
}

/// The number of the first crossbar that a node joins.
fn joined(xbars: &[XbarDesc], outer: &str, node: &NodeDesc) -> Option<usize>
    ensures place { result ≡ position (joins outer.now node.now) xbars.now }
    ensures within { IfSome result (λ place. place < length xbars.now) }
{
    xbars.iter().position(|inner| joins(outer, node, inner))
}

/// Whether a node in the crossbar of this name joins one.
pub(crate) fn joins_one(xbars: &[XbarDesc], outer: &str, node: &NodeDesc) -> bool
    ensures { result ≡ list_any (joins outer.now node.now) xbars.now }
{
    xbars.iter().any(|inner| joins(outer, node, inner))
}

/// Whether one of the listed crossbars has this name, and is of another space.
pub(crate) fn is_elsewhere(xbars: &[XbarUse], name: &str, space: &str) -> bool
    ensures { result ≡ list_any (λ u. bytes_eq u.name name.now && not (bytes_eq u.space space.now)) xbars.now }
{
    xbars.iter().any(|xbar| xbar.name.as_str() == name && xbar.space.as_str() != space)
}

/// The number of the first interface of an instance of a block that a node names.
fn interface_of(inst: &InstDesc, block: &LaidBlock, node: &NodeDesc) -> Option<usize>
    ensures { result ≡ interface_of node.now.host inst.now block.now node.now }
{
    if node.host {
        host_of(inst, block, node)
    } else {
        face_of(inst, block, node)
    }
}

/// The end at an interface of an instance, if there is the interface; one whose number takes more than 32 bits is told as want of memory.
fn end_for(host: bool, number: u32, interface: Option<usize>) -> Result<Option<NodeEnd>, Memory>
    ensures { IfOk result (λ end. end ≡ end_for host number interface) }
{
    let Some(face) = interface else {
        return Ok(None);
    };
    if face > LAST_INTERFACE {
        return Err(Memory);
    }
    let face = face as u32;
    if host {
        Ok(Some(NodeEnd::Host { inst: number, face }))
    } else {
        Ok(Some(NodeEnd::Face { inst: number, face }))
    }
}

/// What a node stands for at an instance, if it names one of its interfaces.
fn end_in(
    top: &MergedTop,
    number: u32,
    inst: &InstDesc,
    node: &NodeDesc,
) -> Result<Option<NodeEnd>, Memory>
    requires read { AreRead top.now }
    requires there { InstanceIs (design_of top.now) number inst.now }
    ensures { IfOk result (λ end. EndsIn (design_of top.now) node.now number end) }
{
    match top.block_of(number) {
        Some(block) => end_for(node.host, number, interface_of(inst, block, node)),
        None => Ok(None),
    }
}

/// What a node that stands for no crossbar stands for.
fn plain_end(top: &MergedTop, node: &NodeDesc) -> Result<NodeEnd, Memory>
    requires read { AreRead top.now }
    requires plain { node.now.xbar ≡ false }
    ensures { IfOk result (λ end. (x : ℕ) → StandsFor (design_of top.now) x node.now end) }
{
    for (number, inst) in top.top.insts.as_slice().iter().enumerate() {
        if let Some(end) = end_in(top, number as u32, inst, node)? {
            return Ok(end);
        }
    }
    Ok(NodeEnd::Outside)
}

/// What a node of a crossbar that stands for another stands for.
fn nested_end(top: &MergedTop, outer: &XbarDesc, node: &NodeDesc) -> NodeEnd
    requires read { AreRead top.now }
    requires nested { node.now.xbar ≡ true }
    ensures { (x : ℕ) → CrossbarIs (design_of top.now) x outer.now → StandsFor (design_of top.now) x node.now result }
{
    match joined(top.xbars.as_slice(), outer.name.as_str(), node) {
        Some(xbar) => NodeEnd::Xbar { xbar: xbar as u32 },
        None => NodeEnd::Outside,
    }
}

/// What a node of a crossbar stands for.
fn end_of(top: &MergedTop, outer: &XbarDesc, node: &NodeDesc) -> Result<NodeEnd, Memory>
    requires { AreRead top.now }
    ensures { IfOk result (λ end. (x : ℕ) → CrossbarIs (design_of top.now) x outer.now → StandsFor (design_of top.now) x node.now end) }
{
    if node.xbar {
        return Ok(nested_end(top, outer, node));
    }
    plain_end(top, node)
}

/// What each node of a crossbar stands for.
fn ends_of_nodes(alloc: Global, top: &MergedTop, outer: &XbarDesc) -> Result<XbarEnds, Memory>
    requires { AreRead top.now }
    ensures { IfOk result (λ ends. (x : ℕ) → CrossbarIs (design_of top.now) x outer.now → AreEndsOf (design_of top.now) x outer.now ends) }
{
    let mut ends = List::new(alloc);
    for node in outer.nodes.as_slice() {
        ends.push(end_of(top, outer, node)?)?;
    }
    Ok(XbarEnds { ends })
}

/// What each node of each crossbar stands for.
pub(crate) fn ends_of(alloc: Global, top: &MergedTop) -> Result<List<XbarEnds>, Memory>
    requires { AreRead top.now }
    ensures { IfOk result (λ ends. AreAllEnds (design_of top.now) ends) }
{
    let mut ends = List::new(alloc);
    for outer in top.xbars.as_slice() {
        ends.push(ends_of_nodes(alloc, top, outer)?)?;
    }
    Ok(ends)
}
