//! A whole crossbar module.

ghost use Rattle.std.specs.Prelude.{◌≡◌, ◌++◌, List, ℕ, Some, None, Err, IfOk, OnOk, map};
ghost use Rattle.cg_svspec.specs.Names.{module_names, first_repeat};
ghost use Rattle.cg_desc.specs.Crossbar.{IsValidCrossbar};
ghost use Rattle.cg_busspec.specs.Crossbar.{crossbar_of};
ghost use Rattle.cg_busspec.specs.CrossbarMeaning.{CrossbarMeans};
ghost use Rattle.cg_busspec.specs.CrossbarModule.{clocks, clock_port, crossbar_ports, crossbar_parts, crossbar_entries, crossbar_module};
ghost use Rattle.cg_busspec.specs.Ranges.{AreRangesOf};
ghost use Rattle.cg_nodes.specs.Parts.{IsParts};
ghost use Rattle.cg_nodes.specs.Clocks.{IsClocks};
ghost use Rattle.cg_nodes.specs.Listed.{parts_of, clocks_of};
ghost use Rattle.cg_sv.specs.Views.{module_of, port_of, entry_of};
ghost use Rattle.cg_sv.specs.declared.fault.SvRegFault.TheVariants as SvRegFault;

use crate::parts::add_parts;
use crate::ports::{add_clock_ports, add_devices_ports, add_hosts_ports};
use crate::selects::add_selects;
use crate::wires::add_wires;
use cg_base::{List, Memory, Text};
use cg_busspec::crossbar_module_means;
use cg_desc::NodeRanges;
use cg_nodes::{Graph, clocks_are_one, parts_are_one};
use cg_sv::{Entry, Module, Port, SvRegFault, names_differ};
use std::alloc::Global;

/// Adds a port for each clock.
#[tactic(auto, using(crate::proofs::Graphs::clock_ports_are))]
fn add_clocks(alloc: Global, ports: &mut List<Port>, graph: &Graph) -> Result<(), Memory>
    requires { graph.now.clocks ≡ clocks_of graph.now.desc }
    ensures { OnOk result (map port_of ports.new ≡ map port_of ports.old ++ map clock_port (clocks graph.now.desc)) }
{
    add_clock_ports(alloc, ports, graph.clocks.as_slice())?;
    Ok(())
}

#[tactic(auto, unfolding(cg_busspec::specs::CrossbarModule::crossbar_ports))]
fn ports_of(alloc: Global, graph: &Graph) -> Result<List<Port>, Memory>
    requires { graph.now.clocks ≡ clocks_of graph.now.desc }
    ensures { IfOk result (λ ports. map port_of ports ≡ crossbar_ports graph.now.desc) }
{
    let mut ports = List::new(alloc);
    add_clocks(alloc, &mut ports, graph)?;
    add_hosts_ports(alloc, &mut ports, &graph.desc)?;
    add_devices_ports(alloc, &mut ports, &graph.desc)?;
    Ok(ports)
}

/// Adds the parts, in the order in which the graph has them.
#[tactic(auto, using(crate::proofs::Graphs::parts_are))]
fn add_graph_parts(alloc: Global, entries: &mut List<Entry>, graph: &Graph) -> Result<(), Memory>
    requires { graph.now.parts ≡ parts_of graph.now.desc }
    ensures { OnOk result (map entry_of entries.new ≡ map entry_of entries.old ++ crossbar_parts graph.now.desc) }
{
    add_parts(alloc, entries, &graph.desc, graph.parts.as_slice())?;
    Ok(())
}

#[tactic(auto, unfolding(cg_busspec::specs::CrossbarModule::crossbar_entries))]
fn entries_of(alloc: Global, graph: &Graph, ranges: &[NodeRanges]) -> Result<List<Entry>, Memory>
    requires { graph.now.parts ≡ parts_of graph.now.desc }
    ensures { IfOk result (λ entries. map entry_of entries ≡ crossbar_entries (crossbar_of graph.now.desc ranges.now)) }
{
    let mut entries = List::new(alloc);
    add_wires(alloc, &mut entries, &graph.desc)?;
    add_selects(alloc, &mut entries, &graph.desc, ranges)?;
    add_graph_parts(alloc, &mut entries, graph)?;
    Ok(entries)
}

/// The module, whose names may clash.
#[tactic(auto, unfolding(cg_busspec::specs::CrossbarModule::crossbar_module))]
pub(crate) fn any_module(
    alloc: Global,
    graph: &Graph,
    ranges: &[NodeRanges],
) -> Result<Module, Memory>
    requires parts { graph.now.parts ≡ parts_of graph.now.desc }
    requires clocks { graph.now.clocks ≡ clocks_of graph.now.desc }
    ensures { IfOk result (λ m. module_of m ≡ crossbar_module (crossbar_of graph.now.desc ranges.now)) }
{
    let xbar = graph.desc.name.as_str();
    let name = format!(in alloc; "xbar_{xbar}")?;
    let ports = ports_of(alloc, graph)?;
    let entries = entries_of(alloc, graph, ranges)?;
    Ok(Module {
        name: Text::from_string(name),
        ports,
        entries,
    })
}

/// The module of a crossbar, in which `ranges` are the ranges that count at each of its nodes.
///
/// Its entries stand in this order: the links between parts; the selects of the hosts' sockets; the parts. A request of a host
/// ends at the port of the device that has its address, or in an error. `Clash` has the first name that the module would declare
/// twice, as where the names of two nodes differ in a dot and two underscores alone.
pub fn xbar_module(
    alloc: Global,
    graph: &Graph,
    ranges: &List<NodeRanges>,
) -> Result<Module, SvRegFault>
    requires valid { IsValidCrossbar graph.now.desc }
    requires parts { IsParts graph.now.desc graph.now.parts }
    requires clocks { IsClocks graph.now.desc graph.now.clocks }
    requires ranges { AreRangesOf graph.now.desc ranges.now }
    ensures made { IfOk result (λ m. module_of m ≡ crossbar_module (crossbar_of graph.now.desc ranges.now)) }
    ensures means { IfOk result (λ m. CrossbarMeans (module_of m) graph.now.desc ranges.now) }
    ensures apart { OnOk result (first_repeat (module_names (crossbar_module (crossbar_of graph.now.desc ranges.now))) ≡ None) }
    ensures clash { (n : List ℕ) → result ≡ Err (SvRegFault.Clash n) → first_repeat (module_names (crossbar_module (crossbar_of graph.now.desc ranges.now))) ≡ Some n }
{
    parts_are_one();
    clocks_are_one();
    crossbar_module_means();
    let made = any_module(alloc, graph, ranges.as_slice())?;
    names_differ(alloc, &made)?;
    Ok(made)
}
