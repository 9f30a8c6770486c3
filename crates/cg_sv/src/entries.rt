//! Printing of the entries of a module.

ghost use Rattle.std.specs.Prelude.{◌≡◌, ◌++◌, [], OnOk, map};
ghost use Rattle.cg_svspec.specs.Tree.{inst};
ghost use Rattle.cg_svspec.specs.Layout.{parameter_text, parameters_text, parameters_after_text, connection_text, connections_text, entry_text, entries_text};
ghost use Rattle.cg_sv.specs.Views.{parameter_of, connection_of, entry_of};

use crate::expression::{print_expression, print_value};
use crate::layout::print_range;
use crate::tree::{Conn, Entry, Param};
use cg_base::{Memory, Text};
use std::alloc::Global;

/// Adds a parameter, as `.Width(32)`.
#[tactic(auto, using(crate::proofs::Views::views), unfolding(cg_svspec::specs::Layout::parameter_text))]
fn print_parameter(alloc: Global, out: &mut Text, parameter: &Param) -> Result<(), Memory>
    ensures { OnOk result (out.new ≡ out.old ++ parameter_text (parameter_of parameter.now)) }
{
    out.add(".")?;
    out.add(parameter.name.as_str())?;
    out.add("(")?;
    print_value(alloc, out, &parameter.value)?;
    out.add(")")?;
    Ok(())
}

/// Adds the parameters, with commas between.
#[tactic(auto, using(crate::proofs::Views::views))]
fn print_each_parameter(alloc: Global, out: &mut Text, parameters: &[Param]) -> Result<(), Memory>
    ensures { OnOk result (out.new
        ≡ out.old ++ parameters_after_text [] (map parameter_of parameters.now)) }
{
    let mut first = true;
    for parameter in parameters {
        if !first {
            out.add(", ")?;
        }
        print_parameter(alloc, out, parameter)?;
        first = false;
    }
    Ok(())
}

/// Adds the parameters of an instance in their brackets, or nothing where there is none.
#[tactic(auto, using(crate::proofs::Views::views))]
fn print_parameters(alloc: Global, out: &mut Text, parameters: &[Param]) -> Result<(), Memory>
    ensures { OnOk result (out.new ≡ out.old ++ parameters_text (map parameter_of parameters.now)) }
{
    if parameters.is_empty() {
        return Ok(());
    }
    out.add("#(")?;
    print_each_parameter(alloc, out, parameters)?;
    out.add(") ")?;
    Ok(())
}

/// Adds a connection, indented by four.
#[tactic(auto, using(crate::proofs::Views::views), unfolding(cg_svspec::specs::Layout::connection_text))]
fn print_connection(alloc: Global, out: &mut Text, connection: &Conn) -> Result<(), Memory>
    ensures { OnOk result (out.new ≡ out.old ++ connection_text (connection_of connection.now)) }
{
    out.add("    .")?;
    out.add(connection.name.as_str())?;
    out.add("(")?;
    print_expression(alloc, out, &connection.value)?;
    out.add(")")?;
    Ok(())
}

/// Adds the connections, one on a line, with commas between.
#[tactic(auto, using(crate::proofs::Views::views))]
fn print_connections(alloc: Global, out: &mut Text, connections: &[Conn]) -> Result<(), Memory>
    ensures { OnOk result (out.new
        ≡ out.old ++ connections_text [] (map connection_of connections.now)) }
{
    let mut first = true;
    for connection in connections {
        if !first {
            out.add(",\n")?;
        }
        print_connection(alloc, out, connection)?;
        first = false;
    }
    Ok(())
}

/// Adds an instance, its connections on lines of their own.
#[tactic(auto, using(crate::proofs::Views::views))]
fn print_instance(
    alloc: Global,
    out: &mut Text,
    module: &str,
    parameters: &[Param],
    name: &str,
    connections: &[Conn],
) -> Result<(), Memory>
    ensures { OnOk result (out.new
        ≡ out.old
        ++ entry_text (inst «module».now (map parameter_of parameters.now) name.now (map connection_of connections.now))) }
{
    out.add(module)?;
    out.add(" ")?;
    print_parameters(alloc, out, parameters)?;
    out.add(name)?;
    out.add(" (\n")?;
    print_connections(alloc, out, connections)?;
    out.add("\n  );")?;
    Ok(())
}

/// Adds an entry without its indent and line end.
#[tactic(auto, using(crate::proofs::Views::views))]
fn print_entry(alloc: Global, out: &mut Text, entry: &Entry) -> Result<(), Memory>
    ensures { OnOk result (out.new ≡ out.old ++ entry_text (entry_of entry.now)) }
{
    match entry {
        Entry::Wire { width, name, value } => {
            out.add("wire ")?;
            print_range(alloc, out, *width)?;
            out.add(name.as_str())?;
            if let Some(value) = value {
                out.add(" = ")?;
                print_expression(alloc, out, value)?;
            }
            out.add(";")?;
            Ok(())
        }
        Entry::Assign { name, value } => {
            out.add("assign ")?;
            out.add(name.as_str())?;
            out.add(" = ")?;
            print_expression(alloc, out, value)?;
            out.add(";")?;
            Ok(())
        }
        Entry::Inst {
            module,
            params,
            name,
            conns,
        } => {
            let (parameters, connections) = (params.as_slice(), conns.as_slice());
            print_instance(
                alloc,
                out,
                module.as_str(),
                parameters,
                name.as_str(),
                connections,
            )?;
            Ok(())
        }
    }
}

/// Adds the entries, each on a line of its own, indented by two.
#[tactic(auto, using(crate::proofs::Views::views))]
pub fn print_entries(alloc: Global, out: &mut Text, entries: &[Entry]) -> Result<(), Memory>
    ensures { OnOk result (out.new ≡ out.old ++ entries_text (map entry_of entries.now)) }
{
    for entry in entries {
        out.add("  ")?;
        print_entry(alloc, out, entry)?;
        out.add("\n")?;
    }
    Ok(())
}
