//! The gates of registers: while a gate is 0, a write has no effect.

ghost use Rattle.std.specs.Prelude.{◌≡◌, IfOk};
ghost use Rattle.std.specs.Option.{option_copied};
ghost use Rattle.cg_sv.specs.Views.{expression_of};
ghost use Rattle.cg_regspec.specs.RegisterModule.{first_state, gate_net, gate_of, item_gate, gated};
ghost use Rattle.cg_svreg.specs.Named.{named};

use crate::nets::field_net;
use cg_base::{Memory, Text};
use cg_desc::{Item, LaidRow, RegDesc};
use cg_sv::{Expr, make};
use std::alloc::Global;

/// The item's register, if it has this name, without regard to case.
fn named<'a>(item: &'a Item, name: &str) -> Option<&'a RegDesc>
    ensures { option_copied result ≡ named name.now item.now }
{
    match item {
        Item::Reg(register) => {
            let found = register.name.as_str().eq_ignore_ascii_case(name);
            if found { Some(register) } else { None }
        }
        Item::Window(_) | Item::SkipTo { .. } | Item::Reserved { .. } => None,
    }
}

/// The net of a register's first field.
fn first_state(alloc: Global, register: &RegDesc) -> Result<Option<Text>, Memory>
    ensures { IfOk result (λ net. net ≡ first_state register.now register.now.fields) }
{
    match register.fields.as_slice() {
        [] => Ok(None),
        [field, ..] => {
            let net = field_net(alloc, register, field, "_s")?;
            Ok(Some(net))
        }
    }
}

/// The net of the gate of this name, which is compared without regard to case.
fn gate_net(alloc: Global, rows: &[LaidRow], name: &str) -> Result<Option<Text>, Memory>
    ensures { IfOk result (λ net. net ≡ gate_net rows.now name.now) }
{
    for row in rows {
        if let Some(register) = named(&row.item, name) {
            let net = first_state(alloc, register)?;
            return Ok(net);
        }
    }
    Ok(None)
}

/// The net of a register's gate among all rows, if it has one.
fn gate_of(alloc: Global, all: &[LaidRow], register: &RegDesc) -> Result<Option<Text>, Memory>
    ensures { IfOk result (λ net. net ≡ gate_of all.now register.now.regwen) }
{
    let Some(name) = &register.regwen else {
        return Ok(None);
    };
    let net = gate_net(alloc, all, name.as_str())?;
    Ok(net)
}

/// The net of an item's gate among all rows, if it has one.
pub fn item_gate(alloc: Global, all: &[LaidRow], item: &Item) -> Result<Option<Text>, Memory>
    ensures { IfOk result (λ net. net ≡ item_gate all.now item.now) }
{
    match item {
        Item::Reg(register) => {
            let net = gate_of(alloc, all, register)?;
            Ok(net)
        }
        Item::Window(_) | Item::SkipTo { .. } | Item::Reserved { .. } => Ok(None),
    }
}

/// The expression, and the gate where there is one.
pub fn gated(alloc: Global, x: Expr, gate: Option<Text>) -> Result<Expr, Memory>
    ensures { IfOk result (λ y. expression_of y ≡ gated (expression_of x) gate) }
{
    match gate {
        None => Ok(x),
        Some(name) => {
            let net = make::net(alloc, name.as_str())?;
            let both = make::and(alloc, x, net)?;
            Ok(both)
        }
    }
}
