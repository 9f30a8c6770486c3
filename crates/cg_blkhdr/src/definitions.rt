//! The constants of a block's header, in their order.

ghost use Rattle.std.specs.Prelude.{◌≡◌, ◌≤◌, ◌<◌, ◌*◌, ◌^◌, [], ◌∷◌, ◌++◌, IfOk, OnOk, map};
ghost use Rattle.std.specs.List.{flat_map};
ghost use Rattle.cg_hdrspec.specs.BlockHeader.{in_decimal, in_hexadecimal, offset_of, reset_of, words_of, bytes_of, field_definitions, item_definitions, row_definitions, face_definitions, definitions, reset_word};
ghost use Rattle.cg_blkhdr.specs.Small.{FieldsAreSmall, ItemIsSmall, RowsAreSmall, FacesAreSmall};
ghost use Rattle.cg_blkhdr.specs.Views.{definition_of};

use crate::definition::{Definition, add_decimal, add_hexadecimal};
use crate::names;
use crate::values::{field_mask, reset_word};
use cg_base::{List, Memory};
use cg_desc::{FieldDesc, Item, LaidBlock, LaidFace, LaidRow};
use std::alloc::Global;

/// Adds where a field is: the number of its bit, or its mask and where that stands.
#[tactic(auto, unfolding(cg_hdrspec::specs::BlockHeader::field_definitions))]
fn add_field(
    alloc: Global,
    definitions: &mut List<Definition>,
    register: &str,
    field: &FieldDesc,
) -> Result<(), Memory>
    requires order { field.now.lsb ≤ field.now.msb }
    requires within { field.now.msb < 32 }
    ensures { OnOk result (map definition_of definitions.new ≡ map definition_of definitions.old ++ field_definitions register.now field.now) }
{
    let name = names::field_name(alloc, register, field)?;
    let lsb = u32::from(field.lsb);
    if field.msb == field.lsb {
        add_decimal(alloc, definitions, name.as_str(), "_BIT", lsb)?;
    } else {
        add_hexadecimal(
            alloc,
            definitions,
            name.as_str(),
            "_MASK",
            field_mask(field),
        )?;
        add_decimal(alloc, definitions, name.as_str(), "_OFFSET", lsb)?;
    }
    Ok(())
}

/// Adds where the fields of a register are.
fn add_fields(
    alloc: Global,
    definitions: &mut List<Definition>,
    register: &str,
    fields: &[FieldDesc],
) -> Result<(), Memory>
    requires { FieldsAreSmall fields.now }
    ensures { OnOk result (map definition_of definitions.new ≡ map definition_of definitions.old ++ flat_map (field_definitions register.now) fields.now) }
{
    for field in fields {
        add_field(alloc, definitions, register, field)?;
    }
    Ok(())
}

/// Adds a register's offset and reset value, and where its fields are, under its name in the header.
fn add_register(
    alloc: Global,
    definitions: &mut List<Definition>,
    name: &str,
    first: u32,
    fields: &[FieldDesc],
) -> Result<(), Memory>
    requires fields { FieldsAreSmall fields.now }
    requires word { reset_word fields.now < 2 ^ 32 }
    ensures { OnOk result (map definition_of definitions.new ≡ map definition_of definitions.old
        ++ in_hexadecimal (offset_of name.now) first ∷ in_hexadecimal (reset_of name.now) (reset_word fields.now) ∷ flat_map (field_definitions name.now) fields.now) }
{
    add_hexadecimal(alloc, definitions, name, "_REG_OFFSET", first)?;
    add_hexadecimal(alloc, definitions, name, "_REG_RESVAL", reset_word(fields))?;
    add_fields(alloc, definitions, name, fields)?;
    Ok(())
}

/// Adds a window's offset and its size in words and in bytes, under its name in the header.
fn add_window(
    alloc: Global,
    definitions: &mut List<Definition>,
    name: &str,
    first: u32,
    items: u32,
) -> Result<(), Memory>
    requires { items ≤ 2 ^ 22 }
    ensures { OnOk result (map definition_of definitions.new ≡ map definition_of definitions.old
        ++ in_hexadecimal (offset_of name.now) first ∷ in_decimal (words_of name.now) items ∷ in_hexadecimal (bytes_of name.now) (4 * items) ∷ []) }
{
    add_hexadecimal(alloc, definitions, name, "_REG_OFFSET", first)?;
    add_decimal(alloc, definitions, name, "_SIZE_WORDS", items)?;
    add_hexadecimal(alloc, definitions, name, "_SIZE_BYTES", 4 * items)?;
    Ok(())
}

/// Adds the constants of an item at this offset.
#[tactic(auto, unfolding(cg_hdrspec::specs::BlockHeader::item_definitions, cg_hdrspec::specs::BlockHeader::register_definitions, cg_hdrspec::specs::BlockHeader::window_definitions))]
fn add_item(
    alloc: Global,
    definitions: &mut List<Definition>,
    prefix: &str,
    first: u32,
    item: &Item,
) -> Result<(), Memory>
    requires { ItemIsSmall item.now }
    ensures { OnOk result (map definition_of definitions.new ≡ map definition_of definitions.old ++ item_definitions prefix.now first item.now) }
{
    match item {
        Item::Reg(register) => {
            let name = names::row_name(alloc, prefix, register.name.as_str())?;
            let fields = register.fields.as_slice();
            add_register(alloc, definitions, name.as_str(), first, fields)?;
            Ok(())
        }
        Item::Window(window) => {
            let name = names::row_name(alloc, prefix, window.name.as_str())?;
            add_window(alloc, definitions, name.as_str(), first, window.items)?;
            Ok(())
        }
        Item::SkipTo { .. } | Item::Reserved { .. } => Ok(()),
    }
}

/// Adds the constants of the rows, in the order of their offsets.
fn add_rows(
    alloc: Global,
    definitions: &mut List<Definition>,
    prefix: &str,
    rows: &[LaidRow],
) -> Result<(), Memory>
    requires { RowsAreSmall rows.now }
    ensures { OnOk result (map definition_of definitions.new ≡ map definition_of definitions.old ++ flat_map (row_definitions prefix.now) rows.now) }
{
    for row in rows {
        add_item(alloc, definitions, prefix, row.first, &row.item)?;
    }
    Ok(())
}

/// Adds the constants of an interface.
#[tactic(auto, unfolding(cg_hdrspec::specs::BlockHeader::face_definitions))]
fn add_face(
    alloc: Global,
    definitions: &mut List<Definition>,
    block: &str,
    face: &LaidFace,
) -> Result<(), Memory>
    requires { RowsAreSmall face.now.rows }
    ensures { OnOk result (map definition_of definitions.new ≡ map definition_of definitions.old ++ face_definitions block.now face.now) }
{
    let prefix = names::prefix_of(alloc, block, &face.name)?;
    add_rows(alloc, definitions, prefix.as_str(), face.rows.as_slice())?;
    Ok(())
}

/// Adds the constants of the interfaces, in their order.
fn add_faces(
    alloc: Global,
    definitions: &mut List<Definition>,
    block: &str,
    faces: &[LaidFace],
) -> Result<(), Memory>
    requires { FacesAreSmall faces.now }
    ensures { OnOk result (map definition_of definitions.new ≡ map definition_of definitions.old ++ flat_map (face_definitions block.now) faces.now) }
{
    for face in faces {
        add_face(alloc, definitions, block, face)?;
    }
    Ok(())
}

/// The constants of a block: the width of its registers, then its interfaces.
#[tactic(auto, unfolding(cg_hdrspec::specs::BlockHeader::definitions))]
pub fn definitions_of(alloc: Global, block: &LaidBlock) -> Result<List<Definition>, Memory>
    requires { FacesAreSmall block.now.faces }
    ensures { IfOk result (λ ds. map definition_of ds ≡ definitions block.now) }
{
    let mut definitions = List::new(alloc);
    let name = names::upper(alloc, block.desc.name.as_str())?;
    add_decimal(
        alloc,
        &mut definitions,
        name.as_str(),
        "_PARAM_REG_WIDTH",
        32,
    )?;
    let faces = block.faces.as_slice();
    add_faces(alloc, &mut definitions, block.desc.name.as_str(), faces)?;
    Ok(definitions)
}
