//! What an interface stores: the wires that hold it, and the flip-flops that store it.

ghost use Rattle.std.specs.Prelude.{◌≡◌, ◌++◌, [], ◌∷◌, IfOk, OnOk, map, codes};
ghost use Rattle.cg_svspec.specs.Tree.{net, lit, wire};
ghost use Rattle.cg_desc.specs.declared.block.Item.TheVariants.{Reg};
ghost use Rattle.cg_sv.specs.Views.{entry_of, parameter_of, connection_of};
ghost use Rattle.cg_regspec.specs.NetNames.{state_net, staged_net};
ghost use Rattle.cg_regspec.specs.RegisterModule.{width_of, has_shadow, entry_if, parameter, connection, states_of, item_states, rows_states, flop, flop_of, staged_flop, phase_flop, flops_of, item_flops, rows_flops};

use crate::access::{has_shadow, width_of};
use crate::nets::{self, field_net, next_phase_net, row_net};
use cg_base::{List, Memory};
use cg_desc::{FieldDesc, Item, LaidRow, RegDesc};
use cg_sv::{Conn, Entry, Param, make};
use std::alloc::Global;

/// Adds the wires of a stored field: its value, and its staged value where there is one.
fn add_field_states(
    alloc: Global,
    entries: &mut List<Entry>,
    register: &RegDesc,
    field: &FieldDesc,
) -> Result<(), Memory>
    ensures { OnOk result (map entry_of entries.new ≡ map entry_of entries.old
        ++ (wire (width_of field.now) (state_net register.now field.now)
        ∷ entry_if (has_shadow register.now) (wire (width_of field.now) (staged_net register.now field.now)))) }
{
    let value = field_net(alloc, register, field, "_s")?;
    make::wire(alloc, entries, width_of(field), value.as_str())?;
    if has_shadow(register) {
        let staged = field_net(alloc, register, field, "_t")?;
        make::wire(alloc, entries, width_of(field), staged.as_str())?;
    }
    Ok(())
}

/// Adds the wires of a register's stored fields.
fn add_states(
    alloc: Global,
    entries: &mut List<Entry>,
    register: &RegDesc,
    fields: &[FieldDesc],
) -> Result<(), Memory>
    ensures { OnOk result (map entry_of entries.new ≡ map entry_of entries.old ++ states_of register.now fields.now) }
{
    for field in fields {
        add_field_states(alloc, entries, register, field)?;
    }
    Ok(())
}

/// Adds the wires of a register: its stored fields, and its phase where it has one.
fn add_register_states(
    alloc: Global,
    entries: &mut List<Entry>,
    number: usize,
    register: &RegDesc,
) -> Result<(), Memory>
    ensures { OnOk result (map entry_of entries.new ≡ map entry_of entries.old ++ item_states number (Reg register.now)) }
{
    if !register.hwext {
        add_states(alloc, entries, register, register.fields.as_slice())?;
    }
    if has_shadow(register) {
        let phase = row_net(alloc, "ph_", number)?;
        make::wire(alloc, entries, 1, phase.as_str())?;
    }
    Ok(())
}

fn add_item_states(
    alloc: Global,
    entries: &mut List<Entry>,
    number: usize,
    item: &Item,
) -> Result<(), Memory>
    ensures { OnOk result (map entry_of entries.new ≡ map entry_of entries.old ++ item_states number item.now) }
{
    match item {
        Item::Reg(register) => {
            add_register_states(alloc, entries, number, register)?;
            Ok(())
        }
        Item::Window(_) | Item::SkipTo { .. } | Item::Reserved { .. } => Ok(()),
    }
}

/// Adds the wires of all that is stored.
pub fn add_rows_states(
    alloc: Global,
    entries: &mut List<Entry>,
    rows: &[LaidRow],
) -> Result<(), Memory>
    ensures { OnOk result (map entry_of entries.new ≡ map entry_of entries.old ++ rows_states 0 rows.now) }
{
    for (number, row) in rows.iter().enumerate() {
        add_item_states(alloc, entries, number, &row.item)?;
    }
    Ok(())
}

/// The parameters of a flip-flop.
fn flop_parameters(alloc: Global, width: u32, reset: u32) -> Result<List<Param>, Memory>
    ensures { IfOk result (λ params. map parameter_of params
        ≡ parameter (codes "Width") (lit 0 width) ∷ parameter (codes "ResetValue") (lit width reset) ∷ []) }
{
    let mut params = List::new(alloc);
    make::parameter(alloc, &mut params, "Width", make::lit(0, u64::from(width)))?;
    let reset = make::lit(width, u64::from(reset));
    make::parameter(alloc, &mut params, "ResetValue", reset)?;
    Ok(params)
}

/// The connections of a flip-flop: it takes the next value from one net, and gives its value to another.
fn flop_connections(alloc: Global, from: &str, to: &str) -> Result<List<Conn>, Memory>
    ensures { IfOk result (λ conns. map connection_of conns
        ≡ connection (codes "clk_i") (net (codes "clk_i")) ∷ connection (codes "rst_ni") (net (codes "rst_ni"))
        ∷ connection (codes "d_i") (net from.now) ∷ connection (codes "q_o") (net to.now) ∷ []) }
{
    let mut conns = List::new(alloc);
    let clock = make::net(alloc, "clk_i")?;
    make::connection(alloc, &mut conns, "clk_i", clock)?;
    let reset = make::net(alloc, "rst_ni")?;
    make::connection(alloc, &mut conns, "rst_ni", reset)?;
    let next = make::net(alloc, from)?;
    make::connection(alloc, &mut conns, "d_i", next)?;
    let value = make::net(alloc, to)?;
    make::connection(alloc, &mut conns, "q_o", value)?;
    Ok(conns)
}

/// Adds a flip-flop of this width and reset value.
fn add_flop(
    alloc: Global,
    entries: &mut List<Entry>,
    width: u32,
    reset: u32,
    instance: &str,
    from: &str,
    to: &str,
) -> Result<(), Memory>
    ensures { OnOk result (map entry_of entries.new ≡ map entry_of entries.old ++ flop width reset instance.now from.now to.now ∷ []) }
{
    let params = flop_parameters(alloc, width, reset)?;
    let conns = flop_connections(alloc, from, to)?;
    make::instance(alloc, entries, "prim_flop", params, instance, conns)?;
    Ok(())
}

/// Adds the flip-flop of a field's value.
fn add_value_flop(
    alloc: Global,
    entries: &mut List<Entry>,
    register: &RegDesc,
    field: &FieldDesc,
) -> Result<(), Memory>
    ensures { OnOk result (map entry_of entries.new ≡ map entry_of entries.old ++ flop_of register.now field.now ∷ []) }
{
    let name = nets::flop_instance(alloc, register, field)?;
    let next = field_net(alloc, register, field, "_n")?;
    let value = field_net(alloc, register, field, "_s")?;
    add_flop(
        alloc,
        entries,
        width_of(field),
        field.resval,
        name.as_str(),
        next.as_str(),
        value.as_str(),
    )?;
    Ok(())
}

/// Adds the flip-flop of a field's staged value; nothing is staged at reset.
fn add_staged_flop(
    alloc: Global,
    entries: &mut List<Entry>,
    register: &RegDesc,
    field: &FieldDesc,
) -> Result<(), Memory>
    ensures { OnOk result (map entry_of entries.new ≡ map entry_of entries.old ++ staged_flop register.now field.now ∷ []) }
{
    let name = nets::staged_instance(alloc, register, field)?;
    let next = field_net(alloc, register, field, "_v")?;
    let staged = field_net(alloc, register, field, "_t")?;
    add_flop(
        alloc,
        entries,
        width_of(field),
        0,
        name.as_str(),
        next.as_str(),
        staged.as_str(),
    )?;
    Ok(())
}

/// Adds the flip-flop of a row's phase, which is 0 at reset.
fn add_phase_flop(alloc: Global, entries: &mut List<Entry>, number: usize) -> Result<(), Memory>
    ensures { OnOk result (map entry_of entries.new ≡ map entry_of entries.old ++ phase_flop number ∷ []) }
{
    let name = row_net(alloc, "u_ph_", number)?;
    let next = next_phase_net(alloc, number)?;
    let phase = row_net(alloc, "ph_", number)?;
    add_flop(
        alloc,
        entries,
        1,
        0,
        name.as_str(),
        next.as_str(),
        phase.as_str(),
    )?;
    Ok(())
}

/// Adds the flip-flops of a field.
fn add_field_flops(
    alloc: Global,
    entries: &mut List<Entry>,
    register: &RegDesc,
    field: &FieldDesc,
) -> Result<(), Memory>
    ensures { OnOk result (map entry_of entries.new ≡ map entry_of entries.old
        ++ (flop_of register.now field.now ∷ entry_if (has_shadow register.now) (staged_flop register.now field.now))) }
{
    add_value_flop(alloc, entries, register, field)?;
    if has_shadow(register) {
        add_staged_flop(alloc, entries, register, field)?;
    }
    Ok(())
}

/// Adds the flip-flops of a register's stored fields.
fn add_flops(
    alloc: Global,
    entries: &mut List<Entry>,
    register: &RegDesc,
    fields: &[FieldDesc],
) -> Result<(), Memory>
    ensures { OnOk result (map entry_of entries.new ≡ map entry_of entries.old ++ flops_of register.now fields.now) }
{
    for field in fields {
        add_field_flops(alloc, entries, register, field)?;
    }
    Ok(())
}

/// Adds the flip-flops of a register: those of its stored fields, and that of its phase where it has one.
fn add_register_flops(
    alloc: Global,
    entries: &mut List<Entry>,
    number: usize,
    register: &RegDesc,
) -> Result<(), Memory>
    ensures { OnOk result (map entry_of entries.new ≡ map entry_of entries.old ++ item_flops number (Reg register.now)) }
{
    if !register.hwext {
        add_flops(alloc, entries, register, register.fields.as_slice())?;
    }
    if has_shadow(register) {
        add_phase_flop(alloc, entries, number)?;
    }
    Ok(())
}

fn add_item_flops(
    alloc: Global,
    entries: &mut List<Entry>,
    number: usize,
    item: &Item,
) -> Result<(), Memory>
    ensures { OnOk result (map entry_of entries.new ≡ map entry_of entries.old ++ item_flops number item.now) }
{
    match item {
        Item::Reg(register) => {
            add_register_flops(alloc, entries, number, register)?;
            Ok(())
        }
        Item::Window(_) | Item::SkipTo { .. } | Item::Reserved { .. } => Ok(()),
    }
}

/// Adds the flip-flops of all that is stored.
pub fn add_rows_flops(
    alloc: Global,
    entries: &mut List<Entry>,
    rows: &[LaidRow],
) -> Result<(), Memory>
    ensures { OnOk result (map entry_of entries.new ≡ map entry_of entries.old ++ rows_flops 0 rows.now) }
{
    for (number, row) in rows.iter().enumerate() {
        add_item_flops(alloc, entries, number, &row.item)?;
    }
    Ok(())
}
