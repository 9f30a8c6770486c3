//! Which accesses a row refuses.

ghost use Rattle.std.specs.Prelude.{◌≡◌, IfOk};
ghost use Rattle.cg_sv.specs.Views.{expression_of};
ghost use Rattle.cg_regspec.specs.RegisterModule.{last_byte, lacks_strobe, window_write_refused, window_read_refused, write_refused, read_refused};

use crate::nets::slice;
use cg_base::Memory;
use cg_desc::{FieldDesc, Item, SwAccess};
use cg_sv::{Expr, make};
use std::alloc::Global;

/// The number of the byte with the highest bit of the last field, 0 where there is none.
fn last_byte(fields: &[FieldDesc]) -> u8
    ensures { result ≡ last_byte 0 fields.now }
{
    let mut last = 0;
    for field in fields {
        last = field.msb / 8;
    }
    last
}

/// Whether one of the bytes from 0 to this one is not strobed.
fn lacks_strobe(alloc: Global, byte: u8) -> Result<Expr, Memory>
    ensures { IfOk result (λ x. expression_of x ≡ lacks_strobe byte) }
{
    let strobes = slice(alloc, "reg_be", 4, byte, 0)?;
    let turned = make::not(alloc, strobes)?;
    let lacks = make::any(alloc, turned)?;
    Ok(lacks)
}

/// What refuses a write to a window of this kind, which takes single bytes or not.
fn window_write_refused(alloc: Global, kind: SwAccess, byte_write: bool) -> Result<Expr, Memory>
    ensures { IfOk result (λ x. expression_of x ≡ window_write_refused kind byte_write) }
{
    if matches!(kind, SwAccess::Ro) {
        return Ok(make::lit(1, 1));
    }
    if byte_write {
        return Ok(make::lit(1, 0));
    }
    let lacks = lacks_strobe(alloc, 3)?;
    Ok(lacks)
}

/// What refuses a read of a window of this kind.
fn window_read_refused(kind: SwAccess) -> Expr
    ensures { expression_of result ≡ window_read_refused kind }
{
    make::lit(1, u64::from(matches!(kind, SwAccess::Wo)))
}

/// What refuses a write to the item.
pub fn write_refused(alloc: Global, item: &Item) -> Result<Expr, Memory>
    ensures { IfOk result (λ x. expression_of x ≡ write_refused item.now) }
{
    match item {
        Item::Reg(register) => {
            let lacks = lacks_strobe(alloc, last_byte(register.fields.as_slice()))?;
            Ok(lacks)
        }
        Item::Window(window) => {
            let refused = window_write_refused(alloc, window.sw, window.byte_write)?;
            Ok(refused)
        }
        Item::SkipTo { .. } | Item::Reserved { .. } => Ok(make::lit(1, 0)),
    }
}

/// What refuses a read of the item.
pub fn read_refused(item: &Item) -> Expr
    ensures { expression_of result ≡ read_refused item.now }
{
    match item {
        Item::Window(window) => window_read_refused(window.sw),
        Item::Reg(_) | Item::SkipTo { .. } | Item::Reserved { .. } => make::lit(1, 0),
    }
}
