//! The wires of a top's module.

ghost use Rattle.std.specs.Prelude.{◌≡◌, ◌++◌, [], ◌∷◌, IfOk, OnOk, map, flat_map};
ghost use Rattle.cg_sv.specs.Views.{expression_of, entry_of};
ghost use Rattle.cg_svbus.specs.TopViewed.{node_id_of, has_wires, pin};
ghost use Rattle.cg_topspec.specs.Top.{counting, is_host, end_of};
ghost use Rattle.cg_topspec.specs.TopModule.{node_wires, interrupt_wires, alert_wires, pin_output_wires, pin_input_wire, pin_input_wires, instance_wires, pin_source};
ghost use Rattle.cg_topspec.specs.TopModule as spec;

use crate::top_bits::{bits_of, item_net, pin_net, pin_source};
use crate::top_blocks::{
    alerts, gives_out, instance_name, interrupts, pin_ports, port_bit, takes_in,
};
use crate::top_links::own_link;
use crate::top_nodes::{TopNode, is_host, node_end, numbers};
use cg_base::{List, Memory};
use cg_desc::{IoDesc, MergedTop, NodeEnd};
use cg_pinmux::PinMap;
use cg_sv::{Entry, Expr, make};
use cg_svxbar::add_link;
use std::alloc::Global;

/// Whether a node has wires of its own: one in the top, but for a host that stands for an outer crossbar.
fn has_wires(top: &MergedTop, id: TopNode) -> bool
    ensures { result ≡ has_wires (is_host top.now (node_id_of id)) (end_of top.now (node_id_of id)) }
{
    match node_end(top, id) {
        NodeEnd::Outside => false,
        NodeEnd::Xbar { .. } => !is_host(top, id),
        NodeEnd::Face { .. } | NodeEnd::Host { .. } => true,
    }
}

/// Adds the wires of a node.
#[tactic(auto, using(crate::proofs::TopParts::wires_by_ends))]
fn add_node_wires(
    alloc: Global,
    entries: &mut List<Entry>,
    top: &MergedTop,
    id: TopNode,
) -> Result<(), Memory>
    ensures { OnOk result (map entry_of entries.new ≡ map entry_of entries.old ++ node_wires top.now (node_id_of id)) }
{
    if has_wires(top, id) {
        let link = own_link(alloc, top, id)?;
        add_link(alloc, entries, &link)?;
    }
    Ok(())
}

/// Adds the wires of the nodes.
pub fn add_nodes_wires(
    alloc: Global,
    entries: &mut List<Entry>,
    top: &MergedTop,
    nodes: &[TopNode],
) -> Result<(), Memory>
    ensures { OnOk result (map entry_of entries.new ≡ map entry_of entries.old ++ flat_map (node_wires top.now) (map node_id_of nodes.now)) }
{
    for id in nodes {
        add_node_wires(alloc, entries, top, *id)?;
    }
    Ok(())
}

/// Adds a wire for each interrupt of an instance.
fn add_interrupt_wires(
    alloc: Global,
    entries: &mut List<Entry>,
    top: &MergedTop,
    inst: usize,
) -> Result<(), Memory>
    ensures { OnOk result (map entry_of entries.new ≡ map entry_of entries.old ++ interrupt_wires top.now inst) }
{
    for interrupt in interrupts(top, inst) {
        let inst = instance_name(top, inst);
        let net = item_net(alloc, "i_", inst, interrupt.name.as_str())?;
        make::wire(alloc, entries, interrupt.width, net.as_str())?;
    }
    Ok(())
}

/// Adds a wire for each alert of an instance.
fn add_alert_wires(
    alloc: Global,
    entries: &mut List<Entry>,
    top: &MergedTop,
    inst: usize,
) -> Result<(), Memory>
    ensures { OnOk result (map entry_of entries.new ≡ map entry_of entries.old ++ alert_wires top.now inst) }
{
    for alert in alerts(top, inst) {
        let inst = instance_name(top, inst);
        let net = item_net(alloc, "a_", inst, alert.name.as_str())?;
        make::wire(alloc, entries, 1, net.as_str())?;
    }
    Ok(())
}

/// Adds a wire for each port of an instance that gives bits out.
fn add_pin_output_wires(
    alloc: Global,
    entries: &mut List<Entry>,
    top: &MergedTop,
    inst: usize,
) -> Result<(), Memory>
    ensures { OnOk result (map entry_of entries.new ≡ map entry_of entries.old ++ pin_output_wires top.now inst) }
{
    for port in pin_ports(top, inst) {
        if gives_out(port.dir) {
            let net = pin_net(alloc, instance_name(top, inst), port.name.as_str(), "_o")?;
            make::wire(alloc, entries, port.width, net.as_str())?;
        }
    }
    Ok(())
}

/// What each bit of a port is given that takes bits in, the lowest first.
fn pin_sources(
    alloc: Global,
    top: &MergedTop,
    pins: &PinMap,
    inst: usize,
    number: usize,
    width: usize,
) -> Result<Vec<Expr>, Memory>
    ensures { IfOk result (λ parts. map expression_of parts.items
        ≡ map (λ k. pin_source top.now pins.now (spec.port_bit inst number k)) (counting 0 width)) }
{
    let bits = numbers(alloc, width)?;
    let mut parts = Vec::new(alloc);
    for bit in bits.iter() {
        let bit = port_bit(inst, number, *bit)?;
        let part = pin_source(alloc, top, pins, bit)?;
        parts.push(part)?;
    }
    Ok(parts)
}

/// Adds the wire of a port that takes bits in, with what each of its bits is given.
fn add_pin_input_wire(
    alloc: Global,
    entries: &mut List<Entry>,
    top: &MergedTop,
    pins: &PinMap,
    inst: usize,
    number: usize,
    port: &IoDesc,
) -> Result<(), Memory>
    ensures { OnOk result (map entry_of entries.new ≡ map entry_of entries.old ++ pin_input_wire top.now pins.now inst (pin number port.now) ∷ []) }
{
    let parts = pin_sources(alloc, top, pins, inst, number, port.width as usize)?;
    let net = pin_net(alloc, instance_name(top, inst), port.name.as_str(), "_i")?;
    make::drive(alloc, entries, port.width, net.as_str(), bits_of(parts))?;
    Ok(())
}

/// Adds those of all ports of an instance that take bits in.
fn add_pin_input_wires(
    alloc: Global,
    entries: &mut List<Entry>,
    top: &MergedTop,
    pins: &PinMap,
    inst: usize,
) -> Result<(), Memory>
    ensures { OnOk result (map entry_of entries.new ≡ map entry_of entries.old ++ pin_input_wires top.now pins.now inst) }
{
    for (number, port) in pin_ports(top, inst).iter().enumerate() {
        if takes_in(port.dir) {
            add_pin_input_wire(alloc, entries, top, pins, inst, number, port)?;
        }
    }
    Ok(())
}

/// Adds the wires of an instance.
fn add_instance_wires(
    alloc: Global,
    entries: &mut List<Entry>,
    top: &MergedTop,
    pins: &PinMap,
    inst: usize,
) -> Result<(), Memory>
    ensures { OnOk result (map entry_of entries.new ≡ map entry_of entries.old ++ instance_wires top.now pins.now inst) }
{
    add_interrupt_wires(alloc, entries, top, inst)?;
    add_alert_wires(alloc, entries, top, inst)?;
    add_pin_output_wires(alloc, entries, top, inst)?;
    add_pin_input_wires(alloc, entries, top, pins, inst)?;
    Ok(())
}

/// Adds the wires of the instances.
pub fn add_instances_wires(
    alloc: Global,
    entries: &mut List<Entry>,
    top: &MergedTop,
    pins: &PinMap,
    insts: &[usize],
) -> Result<(), Memory>
    ensures { OnOk result (map entry_of entries.new ≡ map entry_of entries.old ++ flat_map (instance_wires top.now pins.now) insts.now) }
{
    for inst in insts {
        add_instance_wires(alloc, entries, top, pins, *inst)?;
    }
    Ok(())
}
