//! The ports of a top's module.

ghost use Rattle.std.specs.Prelude.{◌≡◌, ◌++◌, [], ◌∷◌, IfOk, OnOk, codes, map, flat_map, length};
ghost use Rattle.cg_sv.specs.Views.{port_of};
ghost use Rattle.cg_svspec.specs.Register.{input_port, output_port};
ghost use Rattle.cg_desc.specs.declared.top.NodeEnd.TheVariants.{Outside};
ghost use Rattle.cg_svxbar.specs.Viewed.{link_of};
ghost use Rattle.cg_svbus.specs.TopViewed.{node_id_of, counted_port};
ghost use Rattle.cg_topspec.specs.Nets.{clock_net, reset_net};
ghost use Rattle.cg_topspec.specs.Top.{ordered};
ghost use Rattle.cg_topspec.specs.TopModule.{end_ports, node_ports, number_ports, pin_ports, clock_ports, reset_ports, top_ports};

use crate::top_links::own_link;
use crate::top_nodes::{TopNode, is_host, node_end};
use cg_base::{List, Memory};
use cg_desc::{MergedTop, NodeEnd};
use cg_irq::IrqMap;
use cg_pinmux::PinMap;
use cg_sv::{Port, make};
use cg_svxbar::Link;
use std::alloc::Global;

/// A count as a width. `Memory` where it is 2^32 or more: that many bits with their nets are not held in memory.
pub fn width_of(count: usize) -> Result<u32, Memory>
    ensures { IfOk result (λ width. width ≡ count) }
{
    match u32::try_from(count) {
        Ok(width) => Ok(width),
        Err(_) => Err(Memory),
    }
}

/// Adds an input with so many bits, where there are any.
fn add_input(alloc: Global, ports: &mut List<Port>, name: &str, count: usize) -> Result<(), Memory>
    ensures { OnOk result (map port_of ports.new ≡ map port_of ports.old ++ counted_port input_port name.now count) }
{
    if count > 0 {
        make::input(alloc, ports, width_of(count)?, name)?;
    }
    Ok(())
}

/// Adds an output with so many bits, where there are any.
fn add_output(alloc: Global, ports: &mut List<Port>, name: &str, count: usize) -> Result<(), Memory>
    ensures { OnOk result (map port_of ports.new ≡ map port_of ports.old ++ counted_port output_port name.now count) }
{
    if count > 0 {
        make::output(alloc, ports, width_of(count)?, name)?;
    }
    Ok(())
}

/// Adds a port for each clock.
fn add_clock_ports(alloc: Global, ports: &mut List<Port>, top: &MergedTop) -> Result<(), Memory>
    ensures { OnOk result (map port_of ports.new ≡ map port_of ports.old ++ clock_ports top.now) }
{
    for source in top.top.sources.as_slice() {
        let source = source.as_str();
        let name = format!(in alloc; "clk_{source}")?;
        make::input(alloc, ports, 1, &name)?;
    }
    Ok(())
}

/// Adds a port for each reset.
fn add_reset_ports(alloc: Global, ports: &mut List<Port>, top: &MergedTop) -> Result<(), Memory>
    ensures { OnOk result (map port_of ports.new ≡ map port_of ports.old ++ reset_ports top.now) }
{
    for reset in top.top.resets.as_slice() {
        let reset = reset.as_str();
        let name = format!(in alloc; "rst_{reset}")?;
        make::input(alloc, ports, 1, &name)?;
    }
    Ok(())
}

/// Adds the ports of a link from outside: the requests of a host come in, and those to a device go out.
fn add_link_ports(
    alloc: Global,
    ports: &mut List<Port>,
    host: bool,
    link: &Link,
) -> Result<(), Memory>
    ensures { OnOk result (map port_of ports.new ≡ map port_of ports.old ++ end_ports host (link_of link.now) Outside) }
{
    if host {
        make::input(alloc, ports, 70, link.request.as_str())?;
        make::output(alloc, ports, 33, link.response.as_str())?;
        return Ok(());
    }
    make::output(alloc, ports, 70, link.request.as_str())?;
    make::input(alloc, ports, 33, link.response.as_str())?;
    Ok(())
}

/// Adds the link of a node that is outside the top.
#[tactic(auto, using(crate::proofs::TopParts::ports_of_ends))]
fn add_node_ports(
    alloc: Global,
    ports: &mut List<Port>,
    top: &MergedTop,
    id: TopNode,
) -> Result<(), Memory>
    ensures { OnOk result (map port_of ports.new ≡ map port_of ports.old ++ node_ports top.now (node_id_of id)) }
{
    match node_end(top, id) {
        NodeEnd::Face { .. } | NodeEnd::Host { .. } | NodeEnd::Xbar { .. } => {}
        NodeEnd::Outside => {
            let link = own_link(alloc, top, id)?;
            add_link_ports(alloc, ports, is_host(top, id), &link)?;
        }
    }
    Ok(())
}

/// Adds the links of the nodes that are outside the top.
fn add_nodes_ports(
    alloc: Global,
    ports: &mut List<Port>,
    top: &MergedTop,
    nodes: &[TopNode],
) -> Result<(), Memory>
    ensures { OnOk result (map port_of ports.new ≡ map port_of ports.old ++ flat_map (node_ports top.now) (map node_id_of nodes.now)) }
{
    for id in nodes {
        add_node_ports(alloc, ports, top, *id)?;
    }
    Ok(())
}

/// Adds the outputs of the interrupts and of the alerts.
#[tactic(auto, using(crate::proofs::TopParts::counted_ports))]
fn add_number_ports(alloc: Global, ports: &mut List<Port>, irq: &IrqMap) -> Result<(), Memory>
    ensures { OnOk result (map port_of ports.new ≡ map port_of ports.old ++ number_ports irq.now) }
{
    let Some(sources) = width_of(irq.intr.len())?.checked_add(1) else {
        return Err(Memory);
    };
    make::output(alloc, ports, sources, "intr_src")?;
    add_output(alloc, ports, "alert_src", irq.alert.len())?;
    Ok(())
}

/// Adds the ports of pins and of pads.
#[tactic(auto, using(crate::proofs::TopParts::counted_ports))]
fn add_pin_ports(
    alloc: Global,
    ports: &mut List<Port>,
    top: &MergedTop,
    pins: &PinMap,
) -> Result<(), Memory>
    ensures { OnOk result (map port_of ports.new ≡ map port_of ports.old ++ pin_ports top.now pins.now) }
{
    add_input(alloc, ports, "mio_in", pins.ins.len())?;
    add_output(alloc, ports, "mio_out", pins.outs.len())?;
    add_input(alloc, ports, "pad_in", top.top.pads.len())?;
    add_output(alloc, ports, "pad_out", top.top.pads.len())?;
    Ok(())
}

/// All ports of a top's module, of which these are the nodes in the order of the module.
pub fn top_ports(
    alloc: Global,
    top: &MergedTop,
    irq: &IrqMap,
    pins: &PinMap,
    nodes: &[TopNode],
) -> Result<List<Port>, Memory>
    requires { map node_id_of nodes.now ≡ ordered top.now }
    ensures { IfOk result (λ ports. map port_of ports ≡ top_ports top.now irq.now pins.now) }
{
    let mut ports = List::new(alloc);
    add_clock_ports(alloc, &mut ports, top)?;
    add_reset_ports(alloc, &mut ports, top)?;
    add_nodes_ports(alloc, &mut ports, top, nodes)?;
    add_number_ports(alloc, &mut ports, irq)?;
    add_pin_ports(alloc, &mut ports, top, pins)?;
    Ok(ports)
}
