//! The instances of a top's module: of blocks, and of crossbars.

ghost use Rattle.std.specs.Prelude.{◌≡◌, ◌++◌, [], ◌∷◌, IfOk, OnOk, map, flat_map};
ghost use Rattle.cg_sv.specs.Views.{connection_of, entry_of};
ghost use Rattle.cg_svxbar.specs.Viewed as viewed;
ghost use Rattle.cg_svbus.specs.TopViewed.{node_id_of};
ghost use Rattle.cg_topspec.specs.Top.{all_nodes, block_of, instance_of};
ghost use Rattle.cg_topspec.specs.TopModule.{is_instance, is_listed, source_net, instance_ties, interrupt_connection, alert_connection, pin_input_connection, pin_output_connection, instance_connections, instance_entry, crossbar_ties, port_link, node_connections, crossbar_connections, crossbar_entry};
ghost use Rattle.cg_topspec.specs.Nets.{input_pins, output_pins};

use crate::top_bits::{item_net, pin_net};
use crate::top_blocks::{
    alerts, block_name, gives_out, instance_name, interrupts, pin_ports, takes_in,
};
use crate::top_faces::{add_faces, add_host_faces, address_widths, connect, connect_link};
use crate::top_links::{crossbar_link, spelled_name};
use crate::top_nodes::{TopNode, crossbar_name, is_host, node_name, ordered_in};
use cg_base::{List, Memory, Text};
use cg_clkrst::{Owner, Tie};
use cg_desc::MergedTop;
use cg_sv::{Conn, Entry, make};
use cg_svxbar::{Link, named_link};
use std::alloc::Global;

/// Whether the owner is this instance.
fn is_instance(owner: Owner, number: usize) -> bool
    ensures { result ≡ is_instance number owner }
{
    match owner {
        Owner::Inst(inst) => inst as usize == number,
        Owner::Xbar(_) => false,
    }
}

/// Whether the owner is this crossbar.
fn is_listed(owner: Owner, number: usize) -> bool
    ensures { result ≡ is_listed number owner }
{
    match owner {
        Owner::Inst(_) => false,
        Owner::Xbar(xbar) => xbar as usize == number,
    }
}

/// The net of a clock, or of a reset.
fn source_net(alloc: Global, reset: bool, source: &str) -> Result<Text, Memory>
    ensures { IfOk result (λ name. name ≡ source_net reset source.now) }
{
    if reset {
        let name = format!(in alloc; "rst_{source}")?;
        return Ok(Text::from_string(name));
    }
    let name = format!(in alloc; "clk_{source}")?;
    Ok(Text::from_string(name))
}

/// Adds the connections of an instance's clock and reset ports.
fn add_ties(alloc: Global, conns: &mut List<Conn>, ties: &[Tie], inst: usize) -> Result<(), Memory>
    ensures { OnOk result (map connection_of conns.new ≡ map connection_of conns.old ++ instance_ties ties.now inst) }
{
    for tie in ties {
        if is_instance(tie.owner, inst) {
            let net = source_net(alloc, tie.reset, tie.source.as_str())?;
            connect(alloc, conns, tie.port.as_str(), net.as_str())?;
        }
    }
    Ok(())
}

/// Adds the connections of an instance's interrupts.
fn add_interrupts(
    alloc: Global,
    conns: &mut List<Conn>,
    top: &MergedTop,
    inst: usize,
) -> Result<(), Memory>
    ensures { OnOk result (map connection_of conns.new ≡ map connection_of conns.old
        ++ map (interrupt_connection (instance_of top.now inst).name) (block_of top.now inst).desc.intrs) }
{
    for interrupt in interrupts(top, inst) {
        let name = interrupt.name.as_str();
        let port = format!(in alloc; "intr_{name}_o")?;
        let net = item_net(alloc, "i_", instance_name(top, inst), name)?;
        connect(alloc, conns, &port, net.as_str())?;
    }
    Ok(())
}

/// Adds those of its alerts.
fn add_alerts(
    alloc: Global,
    conns: &mut List<Conn>,
    top: &MergedTop,
    inst: usize,
) -> Result<(), Memory>
    ensures { OnOk result (map connection_of conns.new ≡ map connection_of conns.old
        ++ map (alert_connection (instance_of top.now inst).name) (block_of top.now inst).desc.alerts) }
{
    for alert in alerts(top, inst) {
        let name = alert.name.as_str();
        let port = format!(in alloc; "alert_{name}_o")?;
        let net = item_net(alloc, "a_", instance_name(top, inst), name)?;
        connect(alloc, conns, &port, net.as_str())?;
    }
    Ok(())
}

/// Adds those of its ports that take bits in.
fn add_pin_inputs(
    alloc: Global,
    conns: &mut List<Conn>,
    top: &MergedTop,
    inst: usize,
) -> Result<(), Memory>
    ensures { OnOk result (map connection_of conns.new ≡ map connection_of conns.old
        ++ map (pin_input_connection (instance_of top.now inst).name) (input_pins (block_of top.now inst))) }
{
    for io in pin_ports(top, inst) {
        if takes_in(io.dir) {
            let name = io.name.as_str();
            let port = format!(in alloc; "cio_{name}_i")?;
            let net = pin_net(alloc, instance_name(top, inst), name, "_i")?;
            connect(alloc, conns, &port, net.as_str())?;
        }
    }
    Ok(())
}

/// Adds those of its ports that give bits out.
fn add_pin_outputs(
    alloc: Global,
    conns: &mut List<Conn>,
    top: &MergedTop,
    inst: usize,
) -> Result<(), Memory>
    ensures { OnOk result (map connection_of conns.new ≡ map connection_of conns.old
        ++ map (pin_output_connection (instance_of top.now inst).name) (output_pins (block_of top.now inst))) }
{
    for io in pin_ports(top, inst) {
        if gives_out(io.dir) {
            let name = io.name.as_str();
            let port = format!(in alloc; "cio_{name}_o")?;
            let net = pin_net(alloc, instance_name(top, inst), name, "_o")?;
            connect(alloc, conns, &port, net.as_str())?;
        }
    }
    Ok(())
}

/// The connections of an instance, where these are all nodes of the top.
pub fn instance_connections(
    alloc: Global,
    top: &MergedTop,
    nodes: &[TopNode],
    ties: &[Tie],
    inst: usize,
) -> Result<List<Conn>, Memory>
    requires { map node_id_of nodes.now ≡ all_nodes top.now }
    ensures { IfOk result (λ conns. map connection_of conns ≡ instance_connections top.now ties.now inst) }
{
    let mut conns = List::new(alloc);
    add_ties(alloc, &mut conns, ties, inst)?;
    add_faces(alloc, &mut conns, top, nodes, inst)?;
    add_host_faces(alloc, &mut conns, top, nodes, inst)?;
    add_interrupts(alloc, &mut conns, top, inst)?;
    add_alerts(alloc, &mut conns, top, inst)?;
    add_pin_inputs(alloc, &mut conns, top, inst)?;
    add_pin_outputs(alloc, &mut conns, top, inst)?;
    Ok(conns)
}

/// Adds an instance of a block.
#[tactic(auto, using(crate::proofs::TopParts::instance_made))]
fn add_instance(
    alloc: Global,
    entries: &mut List<Entry>,
    top: &MergedTop,
    nodes: &[TopNode],
    ties: &[Tie],
    inst: usize,
) -> Result<(), Memory>
    requires { map node_id_of nodes.now ≡ all_nodes top.now }
    ensures { OnOk result (map entry_of entries.new ≡ map entry_of entries.old ++ instance_entry top.now ties.now inst ∷ []) }
{
    let params = address_widths(alloc, top, inst)?;
    let conns = instance_connections(alloc, top, nodes, ties, inst)?;
    let inst_name = instance_name(top, inst);
    let name = format!(in alloc; "u_{inst_name}")?;
    make::instance(alloc, entries, block_name(top, inst), params, &name, conns)?;
    Ok(())
}

/// Adds the instances of blocks.
pub fn add_instances(
    alloc: Global,
    entries: &mut List<Entry>,
    top: &MergedTop,
    nodes: &[TopNode],
    ties: &[Tie],
    insts: &[usize],
) -> Result<(), Memory>
    requires { map node_id_of nodes.now ≡ all_nodes top.now }
    ensures { OnOk result (map entry_of entries.new ≡ map entry_of entries.old ++ map (instance_entry top.now ties.now) insts.now) }
{
    for inst in insts {
        add_instance(alloc, entries, top, nodes, ties, *inst)?;
    }
    Ok(())
}

/// Adds the connections of a crossbar's clock ports.
fn add_crossbar_ties(
    alloc: Global,
    conns: &mut List<Conn>,
    ties: &[Tie],
    xbar: usize,
) -> Result<(), Memory>
    ensures { OnOk result (map connection_of conns.new ≡ map connection_of conns.old ++ crossbar_ties ties.now xbar) }
{
    for tie in ties {
        if is_listed(tie.owner, xbar) {
            let clock = tie.port.as_str();
            let port = format!(in alloc; "c_{clock}")?;
            let net = source_net(alloc, false, tie.source.as_str())?;
            connect(alloc, conns, &port, net.as_str())?;
        }
    }
    Ok(())
}

/// A node's link in the module of its crossbar.
fn port_link(alloc: Global, top: &MergedTop, id: TopNode) -> Result<Link, Memory>
    ensures { IfOk result (λ l. viewed.link_of l ≡ port_link top.now (node_id_of id)) }
{
    let name = spelled_name(alloc, node_name(top, id))?;
    if is_host(top, id) {
        let link = named_link(alloc, "h_", name.as_str())?;
        return Ok(link);
    }
    let link = named_link(alloc, "d_", name.as_str())?;
    Ok(link)
}

/// Adds the connections of a node of a crossbar.
#[tactic(auto, using(crate::proofs::TopParts::node_connected))]
fn add_node(
    alloc: Global,
    conns: &mut List<Conn>,
    top: &MergedTop,
    id: TopNode,
) -> Result<(), Memory>
    ensures { OnOk result (map connection_of conns.new ≡ map connection_of conns.old ++ node_connections top.now (node_id_of id)) }
{
    let port = port_link(alloc, top, id)?;
    let link = crossbar_link(alloc, top, id)?;
    let (request, response) = (port.request.as_str(), port.response.as_str());
    connect_link(alloc, conns, request, response, &link)?;
    Ok(())
}

/// Adds those of the nodes.
fn add_nodes(
    alloc: Global,
    conns: &mut List<Conn>,
    top: &MergedTop,
    nodes: &[TopNode],
) -> Result<(), Memory>
    ensures { OnOk result (map connection_of conns.new ≡ map connection_of conns.old ++ flat_map (node_connections top.now) (map node_id_of nodes.now)) }
{
    for id in nodes {
        add_node(alloc, conns, top, *id)?;
    }
    Ok(())
}

/// The connections of a crossbar's instance, in the order of its ports.
fn crossbar_connections(
    alloc: Global,
    top: &MergedTop,
    ties: &[Tie],
    xbar: usize,
) -> Result<List<Conn>, Memory>
    ensures { IfOk result (λ conns. map connection_of conns ≡ crossbar_connections top.now ties.now xbar) }
{
    let mut conns = List::new(alloc);
    add_crossbar_ties(alloc, &mut conns, ties, xbar)?;
    let nodes = ordered_in(alloc, top, xbar)?;
    add_nodes(alloc, &mut conns, top, nodes.as_slice())?;
    Ok(conns)
}

/// Adds the instance of a crossbar.
#[tactic(auto, using(crate::proofs::TopParts::crossbar_made))]
fn add_crossbar(
    alloc: Global,
    entries: &mut List<Entry>,
    top: &MergedTop,
    ties: &[Tie],
    xbar: usize,
) -> Result<(), Memory>
    ensures { OnOk result (map entry_of entries.new ≡ map entry_of entries.old ++ crossbar_entry top.now ties.now xbar ∷ []) }
{
    let conns = crossbar_connections(alloc, top, ties, xbar)?;
    let xbar_name = crossbar_name(top, xbar);
    let part = format!(in alloc; "xbar_{xbar_name}")?;
    let name = format!(in alloc; "u_xbar_{xbar_name}")?;
    make::instance(alloc, entries, &part, List::new(alloc), &name, conns)?;
    Ok(())
}

/// Adds the instances of crossbars.
pub fn add_crossbars(
    alloc: Global,
    entries: &mut List<Entry>,
    top: &MergedTop,
    ties: &[Tie],
    xbars: &[usize],
) -> Result<(), Memory>
    ensures { OnOk result (map entry_of entries.new ≡ map entry_of entries.old ++ map (crossbar_entry top.now ties.now) xbars.now) }
{
    for xbar in xbars {
        add_crossbar(alloc, entries, top, ties, *xbar)?;
    }
    Ok(())
}
