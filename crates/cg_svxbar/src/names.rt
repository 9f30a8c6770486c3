//! The names that a module declares, as a list of their own.

ghost use Rattle.std.specs.Prelude.{◌≡◌, ◌++◌, ◌∷◌, [], List, IfOk, OnOk, map};
ghost use Rattle.cg_busspec.specs.Crossbar.{crossbar_of};
ghost use Rattle.cg_busspec.specs.CrossbarModule.{crossbar_module};
ghost use Rattle.cg_desc.specs.Crossbar.{IsValidCrossbar};
ghost use Rattle.cg_desc.specs.declared.crossbar.NodeRanges.{NodeRanges};
ghost use Rattle.cg_nodes.specs.Clocks.{IsClocks};
ghost use Rattle.cg_nodes.specs.Parts.{IsParts};
ghost use Rattle.cg_sv.specs.Views.{entry_of, module_of, port_of};
ghost use Rattle.cg_svspec.specs.Names.{entry_names, module_names, port_names};

use crate::module::any_module;
use cg_base::{List, Memory, Text};
use cg_nodes::{Graph, clocks_are_one, parts_are_one};
use cg_sv::{Entry, Module, Port};
use std::alloc::Global;

/// Adds a copy of a name.
pub fn add_name(alloc: Global, names: &mut List<Text>, name: &str) -> Result<(), Memory>
    ensures { OnOk result (names.new ≡ names.old ++ name.now ∷ []) }
{
    let name = Text::of(alloc, name)?;
    names.push(name)?;
    Ok(())
}

/// Adds the names of ports.
fn add_ports(alloc: Global, names: &mut List<Text>, ports: &[Port]) -> Result<(), Memory>
    ensures { OnOk result (names.new ≡ names.old ++ port_names (map port_of ports.now)) }
{
    for port in ports {
        add_name(alloc, names, port.name.as_str())?;
    }
    Ok(())
}

/// Adds the names of wires and of instances.
fn add_entries(alloc: Global, names: &mut List<Text>, entries: &[Entry]) -> Result<(), Memory>
    ensures { OnOk result (names.new ≡ names.old ++ entry_names (map entry_of entries.now)) }
{
    for entry in entries {
        match entry {
            Entry::Wire { name, .. } => add_name(alloc, names, name.as_str())?,
            Entry::Assign { .. } => {}
            Entry::Inst { name, .. } => add_name(alloc, names, name.as_str())?,
        }
    }
    Ok(())
}

/// The names that a module declares, in text order: its ports, wires and instances. One may come twice.
pub fn declared_names(alloc: Global, module: &Module) -> Result<List<Text>, Memory>
    ensures { IfOk result (λ names. names ≡ module_names (module_of «module».now)) }
{
    let mut names = List::new(alloc);
    add_ports(alloc, &mut names, module.ports.as_slice())?;
    add_entries(alloc, &mut names, module.entries.as_slice())?;
    Ok(names)
}

/// The names that the module of a crossbar declares where no ranges count.
fn names_without_ranges(alloc: Global, graph: &Graph) -> Result<List<Text>, Memory>
    requires valid { IsValidCrossbar graph.now.desc }
    requires parts { IsParts graph.now.desc graph.now.parts }
    requires clocks { IsClocks graph.now.desc graph.now.clocks }
    ensures { IfOk result (λ names. names ≡ module_names (crossbar_module (crossbar_of graph.now.desc []))) }
{
    parts_are_one();
    clocks_are_one();
    let module = any_module(alloc, graph, &[])?;
    let names = declared_names(alloc, &module)?;
    Ok(names)
}

/// The names that the module of a crossbar declares, in text order, whatever ranges count at its nodes. One may come twice: `xbar_module`
/// then refuses the crossbar.
#[tactic(auto, using(crate::proofs::NamesOf::with_any_ranges))]
pub fn xbar_names(alloc: Global, graph: &Graph) -> Result<List<Text>, Memory>
    requires valid { IsValidCrossbar graph.now.desc }
    requires parts { IsParts graph.now.desc graph.now.parts }
    requires clocks { IsClocks graph.now.desc graph.now.clocks }
    ensures { (ranges : List NodeRanges) → IfOk result (λ names. names ≡ module_names (crossbar_module (crossbar_of graph.now.desc ranges))) }
{
    names_without_ranges(alloc, graph)
}
