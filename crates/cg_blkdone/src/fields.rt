//! The fields of a register, with everything said.

ghost use Rattle.std.specs.Prelude.{◌≡◌, IfOk, codes, unwrap_or};
ghost use Rattle.serde_json.specs.View.{view};
ghost use Rattle.cg_keys.specs.Elements.{elements};
ghost use Rattle.cg_keys.specs.Values.{members_of};
ghost use Rattle.cg_blkread.specs.Raw.{register_reset, shared_of};
ghost use Rattle.cg_blkread.specs.Described.{no_bits};
ghost use Rattle.cg_blkdone.specs.Full.{field_pairs, full_fields, list_of, reset_of, said_with};
ghost use Rattle.cg_blkdone.specs.Parts.{AreKept, IsKept, fields_with};

use crate::plain::{bits, hardware, number, software, text, truth};
use crate::putting::with;
use cg_base::Memory;
use cg_blkread::{Bits, RawField, register_reset, reset_of, shared_of, written_fields};
use cg_hjson::{Tree, to_json};
use cg_keys::{elements, members};
use serde_json::Value;
use std::alloc::Global;

fn places_of(field: &RawField) -> Bits
    ensures { result ≡ unwrap_or field.now.bits no_bits }
{
    field.bits.unwrap_or(Bits { msb: 0, lsb: 0 })
}

#[tactic(auto, unfolding(cg_blkread::specs::Described::field_desc))]
fn reset_value(register_resval: Option<u32>, field: &RawField) -> u32
    ensures { result ≡ reset_of register_resval field.now }
{
    reset_of(field.resval, register_resval, places_of(field))
}

/// A field with everything said.
#[tactic(auto, unfolding(crate::specs::Full::field_pairs), using(crate::proofs::InTurn::with_more))]
fn full_field(
    alloc: Global,
    register_resval: Option<u32>,
    field: &RawField,
    tree: &Tree,
) -> Result<Value, Memory>
    requires { IsKept tree.now }
    ensures { IfOk result (λ v. view v ≡ said_with (field_pairs register_resval field.now) tree.now) }
{
    let resval = reset_value(register_resval, field);
    let value = to_json(alloc, tree)?;
    let value = with(alloc, value, "bits", bits(alloc, places_of(field))?)?;
    let value = with(alloc, value, "name", text(alloc, field.name.as_str())?)?;
    let value = with(alloc, value, "swaccess", software(alloc, field.sw)?)?;
    let value = with(alloc, value, "hwaccess", hardware(alloc, field.hw)?)?;
    let value = with(alloc, value, "resval", number(resval))?;
    let value = with(alloc, value, "mubi", truth(field.mubi))?;
    Ok(value)
}

fn full_fields(
    alloc: Global,
    register_resval: Option<u32>,
    fields: &[RawField],
    items: &[Tree],
) -> Result<Value, Memory>
    requires { AreKept items.now }
    ensures { IfOk result (λ v. view v ≡ list_of (fields_with register_resval fields.now items.now)) }
{
    let mut list = Vec::new(alloc);
    for (field, item) in fields.iter().zip(items) {
        let value = full_field(alloc, register_resval, field, item)?;
        list.push(value)?;
    }
    Ok(Value::from(list))
}

/// The fields of a register, each with everything said.
#[tactic(auto, using(crate::proofs::Kept::kept_elements, crate::proofs::InTurn::fields_with_raw))]
pub(crate) fn register_fields(alloc: Global, tree: &Tree) -> Result<Value, Memory>
    requires { IsKept tree.now }
    ensures { IfOk result (λ v. view v ≡ list_of (full_fields (shared_of (members_of tree.now)) (register_reset (members_of tree.now)) 1 (elements (codes "fields") (members_of tree.now)))) }
{
    let members = members(tree);
    let shared = shared_of(members);
    let items = elements(members, "fields");
    let fields = written_fields(alloc, &shared, items)?;
    let value = full_fields(alloc, register_reset(members), fields.as_slice(), items)?;
    Ok(value)
}
