//! The ports of a register module.

ghost use Rattle.std.specs.Prelude.{◌≡◌, ◌++◌, OnOk, map};
ghost use Rattle.cg_svspec.specs.Register.{input_port, output_port, access_ports};
ghost use Rattle.cg_desc.specs.declared.block.Item.TheVariants.{Reg};
ghost use Rattle.cg_sv.specs.Views.{port_of};
ghost use Rattle.cg_regspec.specs.RegisterModule.{width_of, port_if, field_ports, fields_ports, window_ports, item_ports, rows_ports};

use crate::access::{has_d, has_de, has_q, has_qe, has_re, has_shadow, width_of};
use crate::nets::{field_net, update_error_net, window_net};
use cg_base::{List, Memory};
use cg_desc::{FieldDesc, Item, LaidRow, RegDesc, WindowDesc};
use cg_sv::{Port, make};
use std::alloc::Global;

/// Adds the ports that every register module begins with.
pub fn add_access_ports(alloc: Global, ports: &mut List<Port>) -> Result<(), Memory>
    ensures { OnOk result (map port_of ports.new ≡ map port_of ports.old ++ access_ports) }
{
    make::input(alloc, ports, 1, "clk_i")?;
    make::input(alloc, ports, 1, "rst_ni")?;
    make::input(alloc, ports, 1, "reg_we")?;
    make::input(alloc, ports, 1, "reg_re")?;
    make::input(alloc, ports, 32, "reg_addr")?;
    make::input(alloc, ports, 32, "reg_wdata")?;
    make::input(alloc, ports, 4, "reg_be")?;
    make::output(alloc, ports, 32, "reg_rdata")?;
    make::output(alloc, ports, 1, "reg_error")?;
    Ok(())
}

/// Adds an output where the field has it.
fn add_output_if(
    alloc: Global,
    ports: &mut List<Port>,
    present: bool,
    width: u32,
    name: &str,
) -> Result<(), Memory>
    ensures { OnOk result (map port_of ports.new ≡ map port_of ports.old ++ port_if present (output_port width name.now)) }
{
    if present {
        make::output(alloc, ports, width, name)?;
    }
    Ok(())
}

/// Adds an input where the field has it.
fn add_input_if(
    alloc: Global,
    ports: &mut List<Port>,
    present: bool,
    width: u32,
    name: &str,
) -> Result<(), Memory>
    ensures { OnOk result (map port_of ports.new ≡ map port_of ports.old ++ port_if present (input_port width name.now)) }
{
    if present {
        make::input(alloc, ports, width, name)?;
    }
    Ok(())
}

/// Adds a field's ports: what hardware sees of it, and what hardware brings.
fn add_field_ports(
    alloc: Global,
    ports: &mut List<Port>,
    register: &RegDesc,
    field: &FieldDesc,
) -> Result<(), Memory>
    ensures { OnOk result (map port_of ports.new ≡ map port_of ports.old ++ field_ports register.now field.now) }
{
    let width = width_of(field);
    let q = field_net(alloc, register, field, "_q")?;
    add_output_if(alloc, ports, has_q(register, field), width, q.as_str())?;
    let qe = field_net(alloc, register, field, "_qe")?;
    add_output_if(alloc, ports, has_qe(register, field), 1, qe.as_str())?;
    let re = field_net(alloc, register, field, "_re")?;
    add_output_if(alloc, ports, has_re(register, field), 1, re.as_str())?;
    let d = field_net(alloc, register, field, "_d")?;
    add_input_if(alloc, ports, has_d(register, field), width, d.as_str())?;
    let de = field_net(alloc, register, field, "_de")?;
    add_input_if(alloc, ports, has_de(register, field), 1, de.as_str())?;
    Ok(())
}

/// Adds the ports of the fields.
fn add_fields_ports(
    alloc: Global,
    ports: &mut List<Port>,
    register: &RegDesc,
    fields: &[FieldDesc],
) -> Result<(), Memory>
    ensures { OnOk result (map port_of ports.new ≡ map port_of ports.old ++ fields_ports register.now fields.now) }
{
    for field in fields {
        add_field_ports(alloc, ports, register, field)?;
    }
    Ok(())
}

/// Adds a window's ports: its strobes, the access, and the data that it is read with.
fn add_window_ports(
    alloc: Global,
    ports: &mut List<Port>,
    window: &WindowDesc,
) -> Result<(), Memory>
    ensures { OnOk result (map port_of ports.new ≡ map port_of ports.old ++ window_ports window.now) }
{
    let we = window_net(alloc, window, "_we")?;
    make::output(alloc, ports, 1, we.as_str())?;
    let re = window_net(alloc, window, "_re")?;
    make::output(alloc, ports, 1, re.as_str())?;
    let addr = window_net(alloc, window, "_addr")?;
    make::output(alloc, ports, 32, addr.as_str())?;
    let wdata = window_net(alloc, window, "_wdata")?;
    make::output(alloc, ports, 32, wdata.as_str())?;
    let be = window_net(alloc, window, "_be")?;
    make::output(alloc, ports, 4, be.as_str())?;
    let rdata = window_net(alloc, window, "_rdata")?;
    make::input(alloc, ports, 32, rdata.as_str())?;
    Ok(())
}

/// Adds the ports of a register: those of its fields, and the update error of a shadowed one.
fn add_register_ports(
    alloc: Global,
    ports: &mut List<Port>,
    register: &RegDesc,
) -> Result<(), Memory>
    ensures { OnOk result (map port_of ports.new ≡ map port_of ports.old ++ item_ports (Reg register.now)) }
{
    add_fields_ports(alloc, ports, register, register.fields.as_slice())?;
    let error = update_error_net(alloc, register)?;
    add_output_if(alloc, ports, has_shadow(register), 1, error.as_str())?;
    Ok(())
}

fn add_item_ports(alloc: Global, ports: &mut List<Port>, item: &Item) -> Result<(), Memory>
    ensures { OnOk result (map port_of ports.new ≡ map port_of ports.old ++ item_ports item.now) }
{
    match item {
        Item::Reg(register) => {
            add_register_ports(alloc, ports, register)?;
            Ok(())
        }
        Item::Window(window) => {
            add_window_ports(alloc, ports, window)?;
            Ok(())
        }
        Item::SkipTo { .. } | Item::Reserved { .. } => Ok(()),
    }
}

/// Adds the ports of the rows, in their order.
pub fn add_rows_ports(alloc: Global, ports: &mut List<Port>, rows: &[LaidRow]) -> Result<(), Memory>
    ensures { OnOk result (map port_of ports.new ≡ map port_of ports.old ++ rows_ports rows.now) }
{
    for row in rows {
        add_item_ports(alloc, ports, &row.item)?;
    }
    Ok(())
}
