//! What a read of a row shows.

ghost use Rattle.std.specs.Prelude.{◌≡◌, IfOk};
ghost use Rattle.cg_svspec.specs.Tree.{cat, none};
ghost use Rattle.cg_sv.specs.Views.{expression_of};
ghost use Rattle.cg_regspec.specs.RegisterModule.{all_ones, shown_part, word_parts, item_word_text};

use crate::access::{is_in_word, width_of};
use crate::nets::{self, window_net};
use crate::parts::{concatenation, no_parts, put_above, put_gap};
use cg_base::Memory;
use cg_desc::{FieldDesc, Item, RegDesc};
use cg_sv::{Expr, make};
use std::alloc::Global;

/// All ones, which a read shows where nothing answers it.
pub fn all_ones() -> Expr
    ensures { expression_of result ≡ all_ones }
{
    make::lit(32, 0xffff_ffff)
}

/// A field's part of its register's word: what a read shows of it, or zeros.
fn shown_part(alloc: Global, register: &RegDesc, field: &FieldDesc) -> Result<Expr, Memory>
    ensures { IfOk result (λ x. expression_of x ≡ shown_part register.now field.now) }
{
    if !is_in_word(field.sw) {
        return Ok(make::lit(width_of(field), 0));
    }
    if register.hwext {
        let brought = nets::field(alloc, register, field, "_d")?;
        return Ok(brought);
    }
    let stored = nets::field(alloc, register, field, "_s")?;
    Ok(stored)
}

/// A register's word, from bit 31 down: its fields, and zeros between them.
fn register_word(alloc: Global, register: &RegDesc, fields: &[FieldDesc]) -> Result<Expr, Memory>
    ensures { IfOk result (λ x. expression_of x ≡ cat (word_parts register.now 0 none fields.now)) }
{
    let mut parts = no_parts(alloc);
    let mut from = 0u32;
    for field in fields {
        put_gap(&mut parts, u32::from(field.lsb).saturating_sub(from))?;
        let part = shown_part(alloc, register, field)?;
        put_above(&mut parts, part)?;
        from = u32::from(field.msb) + 1;
    }
    put_gap(&mut parts, 32u32.saturating_sub(from))?;
    Ok(concatenation(parts))
}

/// What a read of the item shows.
pub fn item_word(alloc: Global, item: &Item) -> Result<Expr, Memory>
    ensures { IfOk result (λ x. expression_of x ≡ item_word_text item.now) }
{
    match item {
        Item::Reg(register) => {
            let word = register_word(alloc, register, register.fields.as_slice())?;
            Ok(word)
        }
        Item::Window(window) => {
            let name = window_net(alloc, window, "_rdata")?;
            let word = make::net(alloc, name.as_str())?;
            Ok(word)
        }
        Item::SkipTo { .. } | Item::Reserved { .. } => Ok(all_ones()),
    }
}
