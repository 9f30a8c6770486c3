//! One clock of a register module, over a table of values.

ghost use Rattle.std.specs.Prelude.{◌≡◌, map, IfOk, OnOk};
ghost use Rattle.cg_sv.specs.Views.{connection_of, entry_of, expression_of, parameter_of, port_of};
ghost use Rattle.cg_svspec.specs.Value.{connection_at, eval, parameter_at};
ghost use Rattle.std.specs.Option.{option_map};
ghost use Rattle.cg_sveval.specs.Numbers.{number_of};
ghost use Rattle.cg_sveval.specs.Lookups.{value_in};
ghost use Rattle.cg_sveval.specs.Tables.{Same, cell, eval_in, next_cell, next_cells, output_cells, reset_cell, reset_cells, settled, with_entry, with_input, with_inputs, with_state, with_state_of, with_states, with_value};

use crate::Cell;
use crate::bits::{bits_of, number_of};
use crate::expression::value_of;
use crate::known::Known;
use crate::names::{cell_value, connection_at, net_in, number_in, parameter_at};
use cg_base::{List, Memory, Text};
use cg_sv::{Conn, Entry, Expr, Param, Port};
use std::alloc::Global;

/// Gives an input its value.
fn add_input<'a>(
    alloc: Global,
    known: &mut Known<'a>,
    cells: &[Cell],
    port: &'a Port,
) -> Result<(), Memory>
    ensures { OnOk result (Same (value_in known.new) (with_input cells.now (port_of port.entry.now) (value_in known.old))) }
{
    if port.input {
        let value = cell_value(cells, port.name.as_str());
        let bits = bits_of(alloc, port.width, u64::from(value))?;
        known.put(port.name.as_str(), bits)?;
    }
    Ok(())
}

/// Gives the inputs their values.
pub(crate) fn add_inputs<'a>(
    alloc: Global,
    known: &mut Known<'a>,
    cells: &[Cell],
    ports: &'a [Port],
) -> Result<(), Memory>
    ensures { OnOk result (Same (value_in known.new) (with_inputs cells.now (value_in known.old) (map port_of ports.entry.now))) }
{
    for port in ports {
        add_input(alloc, known, cells, port)?;
    }
    Ok(())
}

/// Gives the state of a flip-flop its value.
fn add_state<'a>(
    alloc: Global,
    known: &mut Known<'a>,
    cells: &[Cell],
    params: &[Param],
    conns: &'a [Conn],
) -> Result<(), Memory>
    ensures { OnOk result (Same (value_in known.new) (with_state cells.now (map parameter_of params.now) (map connection_of conns.entry.now) (value_in known.old))) }
{
    let name = net_in(connection_at(conns, "q_o"));
    let value = u64::from(cell_value(cells, name));
    let width = (number_in(parameter_at(params, "Width")) % (1 << 32)) as u32;
    let bits = bits_of(alloc, width, value)?;
    known.put(name, bits)
}

/// Gives the state of an entry, if it has one, its value.
fn add_state_of<'a>(
    alloc: Global,
    known: &mut Known<'a>,
    cells: &[Cell],
    entry: &'a Entry,
) -> Result<(), Memory>
    ensures { OnOk result (Same (value_in known.new) (with_state_of cells.now (entry_of entry.entry.now) (value_in known.old))) }
{
    match entry {
        Entry::Inst { params, conns, .. } => {
            add_state(alloc, known, cells, params.as_slice(), conns.as_slice())
        }
        Entry::Wire { value, .. } => match value {
            Some(_) => Ok(()),
            None => Ok(()),
        },
        Entry::Assign { .. } => Ok(()),
    }
}

/// Gives the states their values.
pub(crate) fn add_states<'a>(
    alloc: Global,
    known: &mut Known<'a>,
    cells: &[Cell],
    entries: &'a [Entry],
) -> Result<(), Memory>
    ensures { OnOk result (Same (value_in known.new) (with_states cells.now (value_in known.old) (map entry_of entries.entry.now))) }
{
    for entry in entries {
        add_state_of(alloc, known, cells, entry)?;
    }
    Ok(())
}

/// Gives a net the value of its expression.
fn add_value<'a>(
    alloc: Global,
    known: &mut Known<'a>,
    name: &'a str,
    value: &Expr,
) -> Result<(), Memory>
    ensures { OnOk result (Same (value_in known.new) (with_value name.entry.now (eval (value_in known.old) (expression_of value.now)) (value_in known.old))) }
{
    let bits = value_of(alloc, known, value)?;
    known.put(name, bits)
}

/// Gives the net of an entry with an expression its value.
fn add_entry<'a>(alloc: Global, known: &mut Known<'a>, entry: &'a Entry) -> Result<(), Memory>
    ensures { OnOk result (Same (value_in known.new) (with_entry (entry_of entry.entry.now) (value_in known.old))) }
{
    match entry {
        Entry::Wire { name, value, .. } => match value {
            Some(value) => add_value(alloc, known, name.as_str(), value),
            None => Ok(()),
        },
        Entry::Assign { name, value } => add_value(alloc, known, name.as_str(), value),
        Entry::Inst { .. } => Ok(()),
    }
}

/// Gives the nets with an expression their values, in the order of the entries.
pub(crate) fn settle<'a>(
    alloc: Global,
    known: &mut Known<'a>,
    entries: &'a [Entry],
) -> Result<(), Memory>
    ensures { OnOk result (Same (value_in known.new) (settled (value_in known.old) (map entry_of entries.entry.now))) }
{
    for entry in entries {
        add_entry(alloc, known, entry)?;
    }
    Ok(())
}

/// A cell of this name with the value of the expression.
fn cell_of(alloc: Global, known: &Known, name: &str, value: Option<&Expr>) -> Result<Cell, Memory>
    ensures { IfOk result (λ c. c ≡ cell name.now (number_of 32 (eval_in (value_in known.now) (option_map (λ x. expression_of x.now) value.entry)))) }
{
    let name = Text::of(alloc, name)?;
    match value {
        Some(value) => {
            let bits = value_of(alloc, known, value)?;
            let value = number_of(bits.as_slice(), 32) as u32;
            Ok(Cell { name, value })
        }
        None => Ok(Cell { name, value: 0 }),
    }
}

/// The state of a flip-flop after the clock.
fn next_cell(alloc: Global, known: &Known, conns: &[Conn]) -> Result<Cell, Memory>
    ensures { IfOk result (λ c. c ≡ next_cell (value_in known.now) (map connection_of conns.now)) }
{
    let name = net_in(connection_at(conns, "q_o"));
    cell_of(alloc, known, name, connection_at(conns, "d_i"))
}

/// The states after the clock, in entry order.
pub(crate) fn next_cells(
    alloc: Global,
    known: &Known,
    entries: &[Entry],
) -> Result<List<Cell>, Memory>
    ensures { IfOk result (λ cells. cells ≡ next_cells (value_in known.now) (map entry_of entries.now)) }
{
    let mut cells = List::new(alloc);
    for entry in entries {
        match entry {
            Entry::Inst { conns, .. } => {
                let cell = next_cell(alloc, known, conns.as_slice())?;
                cells.push(cell)?;
            }
            Entry::Wire { .. } => {}
            Entry::Assign { .. } => {}
        }
    }
    Ok(cells)
}

/// The outputs, in port order.
pub(crate) fn output_cells(
    alloc: Global,
    known: &Known,
    ports: &[Port],
) -> Result<List<Cell>, Memory>
    ensures { IfOk result (λ cells. cells ≡ output_cells (value_in known.now) (map port_of ports.now)) }
{
    let mut cells = List::new(alloc);
    for port in ports {
        if !port.input {
            let value = number_of(known.value(port.name.as_str()), 32) as u32;
            let name = Text::of(alloc, port.name.as_str())?;
            cells.push(Cell { name, value })?;
        }
    }
    Ok(cells)
}

/// The state of a flip-flop at reset.
fn reset_cell(
    alloc: Global,
    known: &Known,
    params: &[Param],
    conns: &[Conn],
) -> Result<Cell, Memory>
    ensures { IfOk result (λ c. c ≡ reset_cell (value_in known.now) (map parameter_of params.now) (map connection_of conns.now)) }
{
    let name = net_in(connection_at(conns, "q_o"));
    cell_of(alloc, known, name, parameter_at(params, "ResetValue"))
}

/// The states at reset, in entry order.
pub(crate) fn reset_cells(
    alloc: Global,
    known: &Known,
    entries: &[Entry],
) -> Result<List<Cell>, Memory>
    ensures { IfOk result (λ cells. cells ≡ reset_cells (value_in known.now) (map entry_of entries.now)) }
{
    let mut cells = List::new(alloc);
    for entry in entries {
        match entry {
            Entry::Inst { params, conns, .. } => {
                let cell = reset_cell(alloc, known, params.as_slice(), conns.as_slice())?;
                cells.push(cell)?;
            }
            Entry::Wire { .. } => {}
            Entry::Assign { .. } => {}
        }
    }
    Ok(cells)
}
