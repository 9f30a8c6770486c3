//! The names that a header defines.

ghost use Rattle.std.specs.Prelude.{◌≡◌, ◌++◌, IfOk};
ghost use Rattle.cg_hdrspec.specs.BlockHeader.{prefix_of, row_name, field_name, guard_of, upper, behind};

use cg_base::{Memory, Text};
use cg_desc::FieldDesc;
use std::alloc::Global;

/// A name in upper case.
pub fn upper(alloc: Global, name: &str) -> Result<Text, Memory>
    ensures { IfOk result (λ t. t ≡ upper name.now) }
{
    let name = name.to_ascii_uppercase(alloc)?;
    Ok(Text::from_string(name))
}

/// A name in upper case behind another one, with an underscore between.
pub fn behind(alloc: Global, prefix: &str, name: &str) -> Result<Text, Memory>
    ensures { IfOk result (λ t. t ≡ behind prefix.now (upper name.now)) }
{
    let name = name.to_ascii_uppercase(alloc)?;
    let name = format!(in alloc; "{prefix}_{name}")?;
    Ok(Text::from_string(name))
}

/// A name with the name of a constant's kind behind it, as `UART_CTRL_REG_OFFSET`.
pub fn with_kind(alloc: Global, name: &str, kind: &str) -> Result<Text, Memory>
    ensures { IfOk result (λ t. t ≡ name.now ++ kind.now) }
{
    let name = format!(in alloc; "{name}{kind}")?;
    Ok(Text::from_string(name))
}

/// What the names of an interface begin with: the block, and the interface where it has a name.
#[tactic(auto, unfolding(cg_hdrspec::specs::BlockHeader::prefix_of))]
pub fn prefix_of(alloc: Global, block: &str, interface: &Option<Text>) -> Result<Text, Memory>
    ensures { IfOk result (λ t. t ≡ prefix_of block.now interface.now) }
{
    let block = upper(alloc, block)?;
    match interface {
        None => Ok(block),
        Some(interface) => Ok(behind(alloc, block.as_str(), interface.as_str())?),
    }
}

/// The name of a register or window, behind that of its interface.
#[tactic(auto, unfolding(cg_hdrspec::specs::BlockHeader::row_name))]
pub fn row_name(alloc: Global, prefix: &str, name: &str) -> Result<Text, Memory>
    ensures { IfOk result (λ t. t ≡ row_name prefix.now name.now) }
{
    let name = behind(alloc, prefix, name)?;
    Ok(name)
}

/// The name of a field, behind that of its register.
#[tactic(auto, unfolding(cg_hdrspec::specs::BlockHeader::field_name))]
pub fn field_name(alloc: Global, register: &str, field: &FieldDesc) -> Result<Text, Memory>
    ensures { IfOk result (λ t. t ≡ field_name register.now field.now) }
{
    let name = behind(alloc, register, field.name.as_str())?;
    Ok(name)
}

/// The name of a block's guard.
#[tactic(auto, unfolding(cg_hdrspec::specs::BlockHeader::guard_of))]
pub fn guard_of(alloc: Global, block: &str) -> Result<Text, Memory>
    ensures { IfOk result (λ t. t ≡ guard_of block.now) }
{
    let block = block.to_ascii_uppercase(alloc)?;
    let name = format!(in alloc; "_{block}_REG_DEFS_")?;
    Ok(Text::from_string(name))
}
