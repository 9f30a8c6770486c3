//! The names that a module declares, and the first that is declared twice.

ghost use Rattle.std.specs.Prelude.{◌≡◌, ◌++◌, map, IfOk, OnOk};
ghost use Rattle.std.specs.Option.{option_copied};
ghost use Rattle.cg_svspec.specs.Names.{port_names, entry_names, module_names, first_repeat, Differ};
ghost use Rattle.cg_sv.specs.Views.{port_of, entry_of, module_of};
ghost use Rattle.cg_sv.specs.Clashes.{Answers};

use crate::fault::SvRegFault;
use crate::tree::{Entry, Module, Port};
use cg_base::{Memory, Text};
use std::alloc::Global;
use std::collections::HashSet;

/// Adds the names of the ports.
fn add_port_names<'a>(names: &mut Vec<&'a str>, ports: &'a [Port]) -> Result<(), Memory>
    ensures { OnOk result (map (λ s. s.now) names.new.items
        ≡ map (λ s. s.now) names.old.items ++ port_names (map port_of ports.entry.now)) }
{
    for port in ports {
        names.push(port.name.as_str())?;
    }
    Ok(())
}

/// Adds the names of the wires and of the instances. An assigned name is declared elsewhere.
fn add_entry_names<'a>(names: &mut Vec<&'a str>, entries: &'a [Entry]) -> Result<(), Memory>
    ensures { OnOk result (map (λ s. s.now) names.new.items
        ≡ map (λ s. s.now) names.old.items ++ entry_names (map entry_of entries.entry.now)) }
{
    for entry in entries {
        match entry {
            Entry::Wire { name, .. } => names.push(name.as_str())?,
            Entry::Assign { .. } => {}
            Entry::Inst { name, .. } => names.push(name.as_str())?,
        }
    }
    Ok(())
}

/// The names that a module declares, in text order: its ports, wires and instances.
fn declared_names(alloc: Global, module: &Module) -> Result<Vec<&str>, Memory>
    ensures { IfOk result (λ names. map (λ s. s.now) names.items
        ≡ module_names (module_of «module».entry.now)) }
{
    let mut names = Vec::new(alloc);
    add_port_names(&mut names, module.ports.as_slice())?;
    add_entry_names(&mut names, module.entries.as_slice())?;
    Ok(names)
}

/// The first of the names that repeats an earlier one.
pub fn first_repeat<'a>(alloc: Global, names: &[&'a str]) -> Result<Option<&'a str>, Memory>
    ensures { IfOk result (λ found. option_copied found
        ≡ first_repeat (map (λ s. s.now) names.now)) }
{
    let mut seen = HashSet::new(alloc);
    for name in names {
        if !seen.insert(*name)? {
            return Ok(Some(*name));
        }
    }
    Ok(None)
}

/// Tells whether all names that a module declares differ, and else names the first that repeats an earlier one.
///
/// The names are those of its ports, and then of its wires and instances in text order. An assigned name is not
/// counted again, and the module's own name is not counted.
pub fn names_differ(alloc: Global, module: &Module) -> Result<(), SvRegFault>
    ensures answers { Answers result (first_repeat (module_names (module_of «module».now))) }
    ensures differ { OnOk result (Differ (module_names (module_of «module».now))) }
{
    let names = declared_names(alloc, module)?;
    match first_repeat(alloc, names.as_slice())? {
        None => Ok(()),
        Some(name) => Err(SvRegFault::Clash {
            name: Text::of(alloc, name)?,
        }),
    }
}
