//! Which interface a node names, and whether a node before it names the same.

ghost use Rattle.std.specs.Prelude.{◌≡◌, ℕ, eqb, false, true, length};
ghost use Rattle.std.specs.Bool.{Decides};
ghost use Rattle.std.specs.List.{list_any};
ghost use Rattle.cg_desc.specs.Ends.{InstanceIs};
ghost use Rattle.cg_desc.specs.Merged.{design_of};
ghost use Rattle.cg_merge.specs.Checks.{AreRead};
ghost use Rattle.cg_merge.specs.Nodes.{IsBefore, Names, Repeats, RepeatsIn, agrees, is_node_for, one_before, repeats};

use cg_base::Text;
use cg_desc::{InstDesc, LaidBlock, MergedTop, NodeDesc, XbarDesc, is_meant};

/// The nodes that stand before one: those of the earlier crossbars, and the earlier ones of its own.
#[derive(Drop)]
pub(crate) struct Before<'a> {
    pub xbars: &'a [XbarDesc],
    pub nodes: &'a [NodeDesc],
}

pub(crate) fn agrees(host: bool, other: bool) -> bool
    ensures { result ≡ agrees host other }
{
    if host { other } else { !other }
}

/// Whether a node of this direction that stands for no crossbar means an interface of an instance.
#[tactic(auto, unfolding(crate::specs::Nodes::is_node_for))]
pub(crate) fn is_node_for(
    host: bool,
    instance: &str,
    is_sole: bool,
    interface: &Option<Text>,
    node: &NodeDesc,
) -> bool
    ensures { result ≡ is_node_for host instance.now is_sole interface.now node.now }
{
    if !agrees(host, node.host) {
        return false;
    }
    if node.xbar {
        return false;
    }
    is_meant(node.name.as_str(), instance, is_sole, interface)
}

fn one_means(
    host: bool,
    instance: &str,
    is_sole: bool,
    interface: &Option<Text>,
    nodes: &[NodeDesc],
) -> bool
    ensures { result ≡ list_any (is_node_for host instance.now is_sole interface.now) nodes.now }
{
    nodes.iter().any(|node| is_node_for(host, instance, is_sole, interface, node))
}

fn crossbar_means(
    host: bool,
    instance: &str,
    is_sole: bool,
    interface: &Option<Text>,
    xbars: &[XbarDesc],
) -> bool
    ensures { result ≡ list_any (λ xbar. list_any (is_node_for host instance.now is_sole interface.now) xbar.nodes) xbars.now }
{
    xbars.iter().any(|xbar| one_means(host, instance, is_sole, interface, xbar.nodes.as_slice()))
}

/// Whether a node that stands before means an interface.
#[tactic(auto, unfolding(crate::specs::Nodes::one_before))]
fn is_taken(
    host: bool,
    instance: &str,
    is_sole: bool,
    interface: &Option<Text>,
    before: &Before,
) -> bool
    ensures { result ≡ one_before (is_node_for host instance.now is_sole interface.now) before.now.xbars.now before.now.nodes.now }
{
    let earlier = crossbar_means(host, instance, is_sole, interface, before.xbars);
    earlier | one_means(host, instance, is_sole, interface, before.nodes)
}

/// Whether a node means an interface, and one before it does.
fn repeats(
    host: bool,
    instance: &str,
    is_sole: bool,
    before: &Before,
    node: &NodeDesc,
    interface: &Option<Text>,
) -> bool
    ensures { result ≡ repeats host instance.now is_sole before.now.xbars.now before.now.nodes.now node.now interface.now }
{
    if !is_node_for(host, instance, is_sole, interface, node) {
        return false;
    }
    is_taken(host, instance, is_sole, interface, before)
}

/// Whether a node names a device interface of an instance of a block that one before it names.
fn repeats_face(inst: &InstDesc, block: &LaidBlock, before: &Before, node: &NodeDesc) -> bool
    ensures { result ≡ list_any (λ face. repeats false inst.now.name (eqb (length block.now.faces) 1) before.now.xbars.now before.now.nodes.now node.now face.name) block.now.faces }
{
    let instance = inst.name.as_str();
    let is_sole = block.faces.len() == 1;
    block.faces.as_slice().iter().any(|face| repeats(
        false, instance, is_sole, before, node, &face.name,
    ))
}

/// Whether a node names a host interface of an instance of a block that one before it names.
fn repeats_host(inst: &InstDesc, block: &LaidBlock, before: &Before, node: &NodeDesc) -> bool
    ensures { result ≡ list_any (λ face. repeats true inst.now.name (eqb (length block.now.desc.hosts) 1) before.now.xbars.now before.now.nodes.now node.now face.name) block.now.desc.hosts }
{
    let instance = inst.name.as_str();
    let is_sole = block.desc.hosts.len() == 1;
    block.desc.hosts.as_slice().iter().any(|face| repeats(
        true, instance, is_sole, before, node, &face.name,
    ))
}

/// Whether a node names an interface of an instance that one before it names.
fn repeats_in(
    top: &MergedTop,
    number: u32,
    inst: &InstDesc,
    before: &Before,
    node: &NodeDesc,
) -> bool
    requires read { AreRead top.now }
    requires there { InstanceIs (design_of top.now) number inst.now }
    ensures { (x n : ℕ) → IsBefore (design_of top.now) x n before.now.xbars.now before.now.nodes.now → Decides result (RepeatsIn (design_of top.now) x n node.now number) }
{
    match top.block_of(number) {
        Some(block) => repeats_face(inst, block, before, node)
            | repeats_host(inst, block, before, node),
        None => false,
    }
}

/// Whether a node names an interface that one before it names.
pub(crate) fn repeats_one(top: &MergedTop, before: &Before, node: &NodeDesc) -> bool
    requires { AreRead top.now }
    ensures { (x n : ℕ) → IsBefore (design_of top.now) x n before.now.xbars.now before.now.nodes.now → Decides result (Repeats (design_of top.now) x n node.now) }
{
    for (number, inst) in top.top.insts.as_slice().iter().enumerate() {
        if repeats_in(top, number as u32, inst, before, node) {
            return true;
        }
    }
    false
}

/// Whether a node names a device interface of an instance of a block.
fn means_face(inst: &InstDesc, block: &LaidBlock, node: &NodeDesc) -> bool
    ensures { result ≡ list_any (λ face. is_node_for false inst.now.name (eqb (length block.now.faces) 1) face.name node.now) block.now.faces }
{
    let instance = inst.name.as_str();
    let is_sole = block.faces.len() == 1;
    block.faces.as_slice().iter().any(|face| is_node_for(
        false, instance, is_sole, &face.name, node,
    ))
}

/// Whether a node names a device interface of an instance.
fn names_in(top: &MergedTop, number: u32, inst: &InstDesc, node: &NodeDesc) -> bool
    requires read { AreRead top.now }
    requires there { InstanceIs (design_of top.now) number inst.now }
    ensures { Decides result ((f : ℕ) × Names (design_of top.now) false node.now number f) }
{
    match top.block_of(number) {
        Some(block) => means_face(inst, block, node),
        None => false,
    }
}

/// Whether a node names a device interface.
pub(crate) fn names_face(top: &MergedTop, node: &NodeDesc) -> bool
    requires { AreRead top.now }
    ensures { Decides result ((i : ℕ) × ((f : ℕ) × Names (design_of top.now) false node.now i f)) }
{
    for (number, inst) in top.top.insts.as_slice().iter().enumerate() {
        if names_in(top, number as u32, inst, node) {
            return true;
        }
    }
    false
}
