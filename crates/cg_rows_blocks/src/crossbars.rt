//! What is read of a crossbar: its description, its parts and its clocks, or its first fault.

use crate::stages::crossbar;
use cg_base::Memory;
use cg_desc::NodeDesc;
use cg_nodes::{Graph, Part, nodes};
use std::alloc::{AllocError, Global};

fn show_node(node: &NodeDesc, out: &mut String) -> Result<(), AllocError> {
    let word = if node.host { "host" } else { "device" };
    let name = &node.name;
    let clock = &node.clock;
    let nested = if node.xbar { " crossbar" } else { "" };
    write!(out, "\n{word} {name} {clock}{nested}")?;
    for range in node.ranges.as_slice() {
        let base = range.base;
        let size = range.size;
        write!(out, " {base}+{size}")?;
    }
    if !node.to.is_empty() {
        write!(out, " to")?;
    }
    for device in node.to.as_slice() {
        write!(out, " {device}")?;
    }
    Ok(())
}

fn show_part(part: Part, out: &mut String) -> Result<(), AllocError> {
    match part {
        Part::HostFifo { host } => write!(out, " host fifo {host}"),
        Part::Split { host } => write!(out, " split {host}"),
        Part::Join { device } => write!(out, " join {device}"),
        Part::DeviceFifo { device } => write!(out, " device fifo {device}"),
    }
}

fn show_parts(parts: &[Part], out: &mut String) -> Result<(), AllocError> {
    write!(out, "\nparts:")?;
    let mut comma = "";
    for part in parts {
        write!(out, "{comma}")?;
        show_part(*part, out)?;
        comma = ",";
    }
    Ok(())
}

fn show_graph(graph: &Graph, out: &mut String) -> Result<(), AllocError> {
    let name = &graph.desc.name;
    let clock = &graph.desc.clock;
    write!(out, "crossbar {name} {clock}")?;
    for node in graph.desc.nodes.as_slice() {
        show_node(node, out)?;
    }
    show_parts(graph.parts.as_slice(), out)?;
    write!(out, "\nclocks:")?;
    for clock in graph.clocks.as_slice() {
        write!(out, " {clock}")?;
    }
    Ok(())
}

/// The description of a crossbar with its parts and clocks, or the line of its first fault.
pub fn answer(alloc: Global, document: &str) -> Result<String, Memory> {
    match crossbar(alloc, document) {
        Ok(crossbar) => {
            let graph = nodes(alloc, &crossbar)?;
            let mut out = String::new(alloc);
            show_graph(&graph, &mut out)?;
            Ok(out)
        }
        Err(stop) => stop.line(alloc),
    }
}
