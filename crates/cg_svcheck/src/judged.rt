//! Whether a module is well formed, by tables.

ghost use Rattle.std.specs.Prelude.{◌≡◌, ◌&&◌, ℕ, List as Items, [], map, IfOk};
ghost use Rattle.std.specs.Bool.{Decides};
ghost use Rattle.std.specs.List.{list_all};
ghost use Rattle.cg_svspec.specs.Names.{Differ, module_names};
ghost use Rattle.cg_svspec.specs.WellFormed.{WellFormed, drivers_of, inputs_of};
ghost use Rattle.cg_sv.specs.Views.{entry_of, module_of, port_of};
ghost use Rattle.cg_svcheck.specs.Lookups.{AreDrivenWell, Holds, has, is_port_in, is_wire_in};
ghost use Rattle.cg_svcheck.specs.Widths.{is_known};

use crate::known::entries_fit_by;
use crate::lists::{add_by_expressions, add_by_instances, input_names};
use crate::printing::is_printable;
use crate::sets::Names;
use cg_base::Memory;
use cg_sv::{Entry, Module, Port, SvRegFault, first_repeat, names_differ};
use std::alloc::Global;

/// Whether no name is declared twice.
fn are_names_apart(alloc: Global, module: &Module) -> Result<bool, Memory>
    ensures { IfOk result (λ apart. Decides apart (Differ (module_names (module_of «module».now)))) }
{
    match names_differ(alloc, module) {
        Ok(()) => Ok(true),
        Err(SvRegFault::Clash { .. }) => Ok(false),
        Err(SvRegFault::Memory) => Err(Memory),
    }
}

/// The nets that are driven, once for each driver.
fn driver_names<'a>(
    alloc: Global,
    module: &'a Module,
    inputs: &Names,
) -> Result<Vec<&'a str>, Memory>
    requires { Holds inputs.now (inputs_of (map port_of «module».now.ports)) }
    ensures { IfOk result (λ names. map (λ s. s.now) names.items ≡ drivers_of (module_of «module».entry.now)) }
{
    let mut names = Vec::new(alloc);
    add_by_expressions(&mut names, module.entries.as_slice())?;
    add_by_instances(&mut names, inputs, module.entries.as_slice())?;
    Ok(names)
}

/// Whether each output among the ports is driven, and no input.
fn are_ports_in(driven: &Names, ports: &[Port]) -> bool
    ensures { result ≡ list_all (is_port_in (has driven.now)) (map port_of ports.now) }
{
    for port in ports {
        if port.input == driven.has(port.name.as_str()) {
            return false;
        }
    }
    true
}

/// Whether each wire among the entries is driven.
fn are_wires_in(driven: &Names, entries: &[Entry]) -> bool
    ensures { result ≡ list_all (is_wire_in (has driven.now)) (map entry_of entries.now) }
{
    for entry in entries {
        match entry {
            Entry::Wire { name, .. } => {
                if !driven.has(name.as_str()) {
                    return false;
                }
            }
            Entry::Assign { .. } => {}
            Entry::Inst { .. } => {}
        }
    }
    true
}

/// Whether each output and each wire is driven, and no input.
fn are_all_in(driven: &Names, module: &Module) -> bool
    ensures { result ≡ (list_all (is_port_in (has driven.now)) (map port_of «module».now.ports) && list_all (is_wire_in (has driven.now)) (map entry_of «module».now.entries)) }
{
    are_ports_in(driven, module.ports.as_slice()) && are_wires_in(driven, module.entries.as_slice())
}

/// Whether no net has two drivers, each output and each wire has one, and no input has one.
fn are_driven_well(alloc: Global, module: &Module, inputs: &Names) -> Result<bool, Memory>
    requires { Holds inputs.now (inputs_of (map port_of «module».now.ports)) }
    ensures { IfOk result (λ well. Decides well (AreDrivenWell (module_of «module».now))) }
{
    let drivers = driver_names(alloc, module, inputs)?;
    if first_repeat(alloc, drivers.as_slice())?.is_some() {
        return Ok(false);
    }
    let driven = Names::of(alloc, drivers.as_slice())?;
    Ok(are_all_in(&driven, module))
}

/// The inputs, and the nets that instances drive.
fn known_names<'a>(alloc: Global, module: &'a Module, inputs: &Names) -> Result<Names<'a>, Memory>
    requires { Holds inputs.now (inputs_of (map port_of «module».now.ports)) }
    ensures { IfOk result (λ known. (n : Items ℕ) → has known n ≡ is_known (module_of «module».entry.now) [] n) }
{
    let mut names = input_names(alloc, module.ports.as_slice())?;
    add_by_instances(&mut names, inputs, module.entries.as_slice())?;
    Names::of(alloc, names.as_slice())
}

/// Whether the module is well formed, as `well_formed` tells. Its time grows with the size of the module, but for its names in tables,
/// for which it takes memory.
pub fn is_well_formed(alloc: Global, module: &Module) -> Result<bool, Memory>
    ensures { IfOk result (λ well. Decides well (WellFormed (module_of «module».now))) }
{
    if !is_printable(module) {
        return Ok(false);
    }
    if !are_names_apart(alloc, module)? {
        return Ok(false);
    }
    let names = input_names(alloc, module.ports.as_slice())?;
    let inputs = Names::of(alloc, names.as_slice())?;
    if !are_driven_well(alloc, module, &inputs)? {
        return Ok(false);
    }
    let known = known_names(alloc, module, &inputs)?;
    entries_fit_by(alloc, module, known)
}
