//! The inputs of a module, and the nets that are driven in it, as lists of names.

ghost use Rattle.std.specs.Prelude.{◌≡◌, ◌++◌, ℕ, List as Items, map, IfOk, OnOk};
ghost use Rattle.cg_svspec.specs.Tree.{expressions};
ghost use Rattle.cg_svspec.specs.WellFormed.{driven_by_connections, driven_nets, expression_driven, inputs_of, instance_driven, is_input, is_output};
ghost use Rattle.cg_sv.specs.Views.{connection_of, entry_of, expression_of, port_of};
ghost use Rattle.cg_svcheck.specs.Lookups.{Holds, bare_names};

use crate::drivers::{are_bare, ends_with, is_output_name, is_part};
use crate::forms::bare_net;
use crate::sets::Names;
use cg_base::Memory;
use cg_sv::{Conn, Entry, Expr, Port};
use std::alloc::Global;

/// The names of the inputs.
pub fn input_names(alloc: Global, ports: &[Port]) -> Result<Vec<&str>, Memory>
    ensures { IfOk result (λ names. map (λ s. s.now) names.items ≡ inputs_of (map port_of ports.entry.now)) }
{
    let mut names = Vec::new(alloc);
    for port in ports {
        if port.input {
            names.push(port.name.as_str())?;
        }
    }
    Ok(names)
}

/// Whether an expression is an input.
fn is_input_among(inputs: &Names, expr: &Expr) -> bool
    ensures { (names : Items (Items ℕ)) → Holds inputs.now names → result ≡ is_input names (expression_of expr.now) }
{
    match bare_net(expr) {
        Some(name) => inputs.has(name),
        None => false,
    }
}

/// Whether a connection of an instance is an output.
fn is_output_among(inputs: &Names, module: &str, conn: &Conn) -> bool
    ensures { (names : Items (Items ℕ)) → Holds inputs.now names → result ≡ is_output names «module».now (connection_of conn.now) }
{
    if is_part(module) {
        ends_with(conn.name.as_str().as_bytes(), "_o".as_bytes())
    } else {
        !is_input_among(inputs, &conn.value) && is_output_name(conn.name.as_str())
    }
}

/// Adds the names of those parts that are bare nets.
fn add_bare<'a>(names: &mut Vec<&'a str>, parts: &'a [Expr]) -> Result<(), Memory>
    ensures { OnOk result (map (λ s. s.now) names.new.items ≡ map (λ s. s.now) names.old.items ++ bare_names (expressions (map expression_of parts.entry.now))) }
{
    for part in parts {
        if let Some(name) = bare_net(part) {
            names.push(name)?;
        }
    }
    Ok(())
}

/// Adds the nets that an output drives.
#[tactic(auto, using(cg_sv::proofs::Views::views))]
fn add_driven<'a>(names: &mut Vec<&'a str>, expr: &'a Expr) -> Result<(), Memory>
    ensures { OnOk result (map (λ s. s.now) names.new.items ≡ map (λ s. s.now) names.old.items ++ driven_nets (expression_of expr.entry.now)) }
{
    match expr {
        Expr::Net(name) => names.push(name.as_str())?,
        Expr::Cat(parts) => {
            if are_bare(parts.as_slice()) {
                add_bare(names, parts.as_slice())?;
            }
        }
        _ => {}
    }
    Ok(())
}

/// Adds the nets that the outputs among the connections of an instance drive.
fn add_connected<'a>(
    names: &mut Vec<&'a str>,
    inputs: &Names,
    module: &str,
    conns: &'a [Conn],
) -> Result<(), Memory>
    ensures { OnOk result ((ins : Items (Items ℕ)) → Holds inputs.now ins
        → map (λ s. s.now) names.new.items ≡ map (λ s. s.now) names.old.items ++ driven_by_connections ins «module».now (map connection_of conns.entry.now)) }
{
    for conn in conns {
        if is_output_among(inputs, module, conn) {
            add_driven(names, &conn.value)?;
        }
    }
    Ok(())
}

/// Adds the nets that instances drive.
pub fn add_by_instances<'a>(
    names: &mut Vec<&'a str>,
    inputs: &Names,
    entries: &'a [Entry],
) -> Result<(), Memory>
    ensures { OnOk result ((ins : Items (Items ℕ)) → Holds inputs.now ins
        → map (λ s. s.now) names.new.items ≡ map (λ s. s.now) names.old.items ++ instance_driven ins (map entry_of entries.entry.now)) }
{
    for entry in entries {
        match entry {
            Entry::Inst { module, conns, .. } => {
                add_connected(names, inputs, module.as_str(), conns.as_slice())?
            }
            Entry::Wire { .. } => {}
            Entry::Assign { .. } => {}
        }
    }
    Ok(())
}

/// Adds the nets that expressions drive.
pub fn add_by_expressions<'a>(names: &mut Vec<&'a str>, entries: &'a [Entry]) -> Result<(), Memory>
    ensures { OnOk result (map (λ s. s.now) names.new.items ≡ map (λ s. s.now) names.old.items ++ expression_driven (map entry_of entries.entry.now)) }
{
    for entry in entries {
        match entry {
            Entry::Wire {
                name,
                value: Some(_),
                ..
            } => names.push(name.as_str())?,
            Entry::Wire { value: None, .. } => {}
            Entry::Assign { name, .. } => names.push(name.as_str())?,
            Entry::Inst { .. } => {}
        }
    }
    Ok(())
}
