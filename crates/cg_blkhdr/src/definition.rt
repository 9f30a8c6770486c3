//! A constant of a header, and how it is spelled.

ghost use Rattle.std.specs.Prelude.{◌≡◌, ◌++◌, ◌∷◌, [], true, false, OnOk, map};
ghost use Rattle.cg_hdrspec.specs.BlockHeader.{in_decimal, in_hexadecimal, definition_text, definitions_text};
ghost use Rattle.cg_blkhdr.specs.Views.{definition_of};

use crate::names;
use cg_base::{List, Memory, Text};
use std::alloc::Global;

/// A constant as it is defined: in hexadecimal, or in decimal.
#[derive(Drop)]
pub struct Definition {
    pub name: Text,
    pub hexadecimal: bool,
    pub value: u32,
}

/// Adds the constant of this kind, in decimal.
pub fn add_decimal(
    alloc: Global,
    definitions: &mut List<Definition>,
    name: &str,
    kind: &str,
    value: u32,
) -> Result<(), Memory>
    ensures { OnOk result (map definition_of definitions.new ≡ map definition_of definitions.old ++ in_decimal (name.now ++ kind.now) value ∷ []) }
{
    let name = names::with_kind(alloc, name, kind)?;
    definitions.push(Definition {
        name,
        hexadecimal: false,
        value,
    })?;
    Ok(())
}

/// Adds the constant of this kind, in hexadecimal.
pub fn add_hexadecimal(
    alloc: Global,
    definitions: &mut List<Definition>,
    name: &str,
    kind: &str,
    value: u32,
) -> Result<(), Memory>
    ensures { OnOk result (map definition_of definitions.new ≡ map definition_of definitions.old ++ in_hexadecimal (name.now ++ kind.now) value ∷ []) }
{
    let name = names::with_kind(alloc, name, kind)?;
    definitions.push(Definition {
        name,
        hexadecimal: true,
        value,
    })?;
    Ok(())
}

/// Adds the line of a definition.
#[tactic(auto, unfolding(cg_hdrspec::specs::BlockHeader::definition_text))]
fn add_line(alloc: Global, out: &mut Text, definition: &Definition) -> Result<(), Memory>
    ensures { OnOk result (out.new ≡ out.old ++ definition_text (definition_of definition.now)) }
{
    let name = definition.name.as_str();
    let value = definition.value;
    if definition.hexadecimal {
        let line = format!(in alloc; "#define {name} 0x{value:x}\n")?;
        out.add(&line)?;
    } else {
        let line = format!(in alloc; "#define {name} {value}\n")?;
        out.add(&line)?;
    }
    Ok(())
}

/// Adds the lines of the definitions.
pub fn add_lines(alloc: Global, out: &mut Text, definitions: &[Definition]) -> Result<(), Memory>
    ensures { OnOk result (out.new ≡ out.old ++ definitions_text (map definition_of definitions.now)) }
{
    for definition in definitions {
        add_line(alloc, out, definition)?;
    }
    Ok(())
}
