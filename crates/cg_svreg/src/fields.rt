//! The fields: their next values after hardware and software, and what hardware sees of them.

ghost use Rattle.std.specs.Prelude.{◌≡◌, ◌<◌, ◌≤◌, ◌++◌, IfOk, OnOk, map, cond};
ghost use Rattle.cg_svspec.specs.Tree.{net, and, or, pick, assign};
ghost use Rattle.cg_sv.specs.Views.{expression_of, entry_of};
ghost use Rattle.cg_desc.specs.declared.block.Item.TheVariants.{Reg};
ghost use Rattle.cg_regspec.specs.NetNames.{state_net};
ghost use Rattle.cg_regspec.specs.RegisterModule.{width_of, written_bits, zero_bits, one_bits, next_of, hold_of, entry_if, field_views, field_updates, field_entries, fields_entries, item_fields, rows_fields};
ghost use Rattle.cg_svreg.specs.Narrow.{FieldsAreNarrow, ItemIsNarrow, RowsAreNarrow};

use crate::access::{hardware_sets, has_q, has_qe, has_re, has_shadow, width_of};
use crate::nets::{self, field_net, row_net, written_bits};
use crate::shadows::{add_shadow, add_staged, write_net};
use cg_base::{List, Memory, mask};
use cg_desc::{FieldDesc, Item, LaidRow, RegDesc, SwAccess};
use cg_sv::{Entry, Expr, make};
use std::alloc::Global;

/// The written bits where this net tells of a write, and else what changes nothing.
fn where_written(alloc: Global, writes: &str, written: Expr, kept: Expr) -> Result<Expr, Memory>
    ensures { IfOk result (λ x. expression_of x ≡ pick (net writes.now) (expression_of written) (expression_of kept)) }
{
    let write = make::net(alloc, writes)?;
    let bits = make::pick(alloc, write, written, kept)?;
    Ok(bits)
}

/// The value with the bits set that are written as 1.
fn set_by_ones(
    alloc: Global,
    writes: &str,
    written: Expr,
    hold: Expr,
    width: u32,
) -> Result<Expr, Memory>
    ensures { IfOk result (λ x. expression_of x ≡ or (expression_of hold) (pick (net writes.now) (expression_of written) (zero_bits width))) }
{
    let ones = where_written(alloc, writes, written, make::lit(width, 0))?;
    let next = make::or(alloc, hold, ones)?;
    Ok(next)
}

/// The value with those bits alone that these keep, where the net tells of a write.
fn cleared_by(
    alloc: Global,
    writes: &str,
    kept: Expr,
    hold: Expr,
    width: u32,
) -> Result<Expr, Memory>
    requires { width ≤ 64 }
    ensures { IfOk result (λ x. expression_of x ≡ and (expression_of hold) (pick (net writes.now) (expression_of kept) (one_bits width))) }
{
    let kept = where_written(alloc, writes, kept, make::lit(width, mask(width)))?;
    let next = make::and(alloc, hold, kept)?;
    Ok(next)
}

/// Zeros where this net tells of a read, and else the value.
fn cleared_by_read(alloc: Global, reads: &str, hold: Expr, width: u32) -> Result<Expr, Memory>
    ensures { IfOk result (λ x. expression_of x ≡ pick (net reads.now) (zero_bits width) (expression_of hold)) }
{
    let read = make::net(alloc, reads)?;
    let next = make::pick(alloc, read, make::lit(width, 0), hold)?;
    Ok(next)
}

/// The next value of a field over the value after hardware, where these nets tell of a write and of a read.
fn next_of(
    alloc: Global,
    kind: SwAccess,
    writes: &str,
    reads: &str,
    written: Expr,
    hold: Expr,
    width: u32,
) -> Result<Expr, Memory>
    requires { width ≤ 64 }
    ensures { IfOk result (λ x. expression_of x ≡ next_of kind writes.now reads.now (expression_of written) (expression_of hold) width) }
{
    match kind {
        SwAccess::Rw | SwAccess::Wo => {
            let next = where_written(alloc, writes, written, hold)?;
            Ok(next)
        }
        SwAccess::Ro | SwAccess::Nothing => Ok(hold),
        SwAccess::Rw1s => {
            let next = set_by_ones(alloc, writes, written, hold, width)?;
            Ok(next)
        }
        SwAccess::Rw1c | SwAccess::R0w1c => {
            let kept = make::not(alloc, written)?;
            let next = cleared_by(alloc, writes, kept, hold, width)?;
            Ok(next)
        }
        SwAccess::Rw0c => {
            let next = cleared_by(alloc, writes, written, hold, width)?;
            Ok(next)
        }
        SwAccess::Rc => {
            let next = cleared_by_read(alloc, reads, hold, width)?;
            Ok(next)
        }
    }
}

/// The value of a stored field after hardware.
fn hold_of(alloc: Global, register: &RegDesc, field: &FieldDesc) -> Result<Expr, Memory>
    ensures { IfOk result (λ x. expression_of x ≡ hold_of register.now field.now) }
{
    let state = nets::field(alloc, register, field, "_s")?;
    if !hardware_sets(field.hw) {
        return Ok(state);
    }
    let strobe = nets::field(alloc, register, field, "_de")?;
    let brought = nets::field(alloc, register, field, "_d")?;
    let hold = make::pick(alloc, strobe, brought, state)?;
    Ok(hold)
}

/// Adds the value of a stored field after hardware, and after software, and what is staged next.
fn add_updates(
    alloc: Global,
    entries: &mut List<Entry>,
    number: usize,
    register: &RegDesc,
    field: &FieldDesc,
) -> Result<(), Memory>
    requires { field.now.msb < 32 }
    ensures { OnOk result (map entry_of entries.new ≡ map entry_of entries.old ++ field_updates number register.now field.now) }
{
    let width = width_of(field);
    let value = hold_of(alloc, register, field)?;
    let hold = field_net(alloc, register, field, "_h")?;
    make::drive(alloc, entries, width, hold.as_str(), value)?;
    let written = written_bits(alloc, field)?;
    let held = make::net(alloc, hold.as_str())?;
    let writes = write_net(alloc, number, register)?;
    let reads = row_net(alloc, "re_", number)?;
    let value = next_of(
        alloc,
        field.sw,
        writes.as_str(),
        reads.as_str(),
        written,
        held,
        width,
    )?;
    let next = field_net(alloc, register, field, "_n")?;
    make::drive(alloc, entries, width, next.as_str(), value)?;
    add_staged(alloc, entries, number, register, field)?;
    Ok(())
}

/// What hardware sees as the field's value: what is stored, or what is written to an external field.
fn seen_value(alloc: Global, register: &RegDesc, field: &FieldDesc) -> Result<Expr, Memory>
    ensures { IfOk result (λ x. expression_of x ≡ cond register.now.hwext (written_bits field.now) (net (state_net register.now field.now))) }
{
    if register.hwext {
        let written = written_bits(alloc, field)?;
        return Ok(written);
    }
    let state = nets::field(alloc, register, field, "_s")?;
    Ok(state)
}

/// Adds an assign where the field has this view.
fn add_assign_if(
    alloc: Global,
    entries: &mut List<Entry>,
    present: bool,
    name: &str,
    value: Expr,
) -> Result<(), Memory>
    ensures { OnOk result (map entry_of entries.new ≡ map entry_of entries.old ++ entry_if present (assign name.now (expression_of value))) }
{
    if present {
        make::assign(alloc, entries, name, value)?;
    }
    Ok(())
}

/// Adds the assigns of what hardware sees of the field.
fn add_views(
    alloc: Global,
    entries: &mut List<Entry>,
    number: usize,
    register: &RegDesc,
    field: &FieldDesc,
) -> Result<(), Memory>
    ensures { OnOk result (map entry_of entries.new ≡ map entry_of entries.old ++ field_views number register.now field.now) }
{
    let q = field_net(alloc, register, field, "_q")?;
    let value = seen_value(alloc, register, field)?;
    add_assign_if(alloc, entries, has_q(register, field), q.as_str(), value)?;
    let qe = field_net(alloc, register, field, "_qe")?;
    let writes = write_net(alloc, number, register)?;
    let write = make::net(alloc, writes.as_str())?;
    add_assign_if(alloc, entries, has_qe(register, field), qe.as_str(), write)?;
    let re = field_net(alloc, register, field, "_re")?;
    let read = nets::row(alloc, "re_", number)?;
    add_assign_if(alloc, entries, has_re(register, field), re.as_str(), read)?;
    Ok(())
}

/// Adds a field's entries.
fn add_field(
    alloc: Global,
    entries: &mut List<Entry>,
    number: usize,
    register: &RegDesc,
    field: &FieldDesc,
) -> Result<(), Memory>
    requires { field.now.msb < 32 }
    ensures { OnOk result (map entry_of entries.new ≡ map entry_of entries.old ++ field_entries number register.now field.now) }
{
    if !register.hwext {
        add_updates(alloc, entries, number, register, field)?;
    }
    add_views(alloc, entries, number, register, field)?;
    Ok(())
}

/// Adds the entries of the fields.
fn add_fields(
    alloc: Global,
    entries: &mut List<Entry>,
    number: usize,
    register: &RegDesc,
    fields: &[FieldDesc],
) -> Result<(), Memory>
    requires { FieldsAreNarrow fields.now }
    ensures { OnOk result (map entry_of entries.new ≡ map entry_of entries.old ++ fields_entries number register.now fields.now) }
{
    for field in fields {
        add_field(alloc, entries, number, register, field)?;
    }
    Ok(())
}

/// Adds the entries of a register's fields, behind those of its shadow.
fn add_register(
    alloc: Global,
    entries: &mut List<Entry>,
    number: usize,
    register: &RegDesc,
) -> Result<(), Memory>
    requires { FieldsAreNarrow register.now.fields }
    ensures { OnOk result (map entry_of entries.new ≡ map entry_of entries.old ++ item_fields number (Reg register.now)) }
{
    if has_shadow(register) {
        add_shadow(alloc, entries, number, register)?;
    }
    let fields = register.fields.as_slice();
    add_fields(alloc, entries, number, register, fields)?;
    Ok(())
}

fn add_item_fields(
    alloc: Global,
    entries: &mut List<Entry>,
    number: usize,
    item: &Item,
) -> Result<(), Memory>
    requires { ItemIsNarrow item.now }
    ensures { OnOk result (map entry_of entries.new ≡ map entry_of entries.old ++ item_fields number item.now) }
{
    match item {
        Item::Reg(register) => {
            add_register(alloc, entries, number, register)?;
            Ok(())
        }
        Item::Window(_) | Item::SkipTo { .. } | Item::Reserved { .. } => Ok(()),
    }
}

/// Adds the entries of all fields.
pub fn add_rows_fields(
    alloc: Global,
    entries: &mut List<Entry>,
    rows: &[LaidRow],
) -> Result<(), Memory>
    requires { RowsAreNarrow rows.now }
    ensures { OnOk result (map entry_of entries.new ≡ map entry_of entries.old ++ rows_fields 0 rows.now) }
{
    for (number, row) in rows.iter().enumerate() {
        add_item_fields(alloc, entries, number, &row.item)?;
    }
    Ok(())
}
