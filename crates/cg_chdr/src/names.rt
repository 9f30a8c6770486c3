//! The names that a top's header defines.

ghost use Rattle.std.specs.Prelude.{◌≡◌, ◌++◌, IfOk, codes};
ghost use Rattle.cg_tophdr.specs.TopHeader.{top_prefix, interface_name, with_bit, bit_name, guard_of};

use crate::instances::Item;
use cg_base::{Memory, Text};
use cg_blkhdr::{behind, upper};
use std::alloc::Global;

/// What all names of a top begin with.
fn top_prefix(alloc: Global, top: &str) -> Result<Text, Memory>
    ensures { IfOk result (λ t. t ≡ top_prefix top.now) }
{
    let top = upper(alloc, top)?;
    let top = top.as_str();
    let name = format!(in alloc; "TOP_{top}")?;
    Ok(Text::from_string(name))
}

/// The name of an instance's interface: the top, the instance, and the interface where it has a name.
#[tactic(auto, unfolding(cg_tophdr::specs::TopHeader::interface_name))]
pub fn interface_name(
    alloc: Global,
    top: &str,
    inst: &str,
    interface: &Option<Text>,
) -> Result<Text, Memory>
    ensures { IfOk result (λ t. t ≡ interface_name top.now inst.now interface.now) }
{
    let prefix = top_prefix(alloc, top)?;
    let name = behind(alloc, prefix.as_str(), inst)?;
    match interface {
        None => Ok(name),
        Some(interface) => Ok(behind(alloc, name.as_str(), interface.as_str())?),
    }
}

/// A name with the number of a bit behind it, where there is more than one.
fn with_bit(alloc: Global, name: Text, width: u32, bit: u32) -> Result<Text, Memory>
    ensures { IfOk result (λ t. t ≡ with_bit name width bit) }
{
    if width == 1 {
        return Ok(name);
    }
    let name = name.as_str();
    let name = format!(in alloc; "{name}_{bit}")?;
    Ok(Text::from_string(name))
}

/// The name of a bit: the top, the word for its kind, the instance, and what it is of.
#[tactic(auto, unfolding(cg_tophdr::specs::TopHeader::bit_name))]
pub fn bit_name(
    alloc: Global,
    top: &str,
    kind: &str,
    inst: &str,
    item: Item,
    bit: u32,
) -> Result<Text, Memory>
    ensures { IfOk result (λ t. t ≡ bit_name top.now kind.now inst.now item.entry.name.now item.entry.width bit) }
{
    let prefix = top_prefix(alloc, top)?;
    let prefix = prefix.as_str();
    let kind = format!(in alloc; "{prefix}_{kind}")?;
    let inst = behind(alloc, kind.as_str(), inst)?;
    let name = behind(alloc, inst.as_str(), item.name)?;
    let name = with_bit(alloc, name, item.width, bit)?;
    Ok(name)
}

/// The name of the guard.
#[tactic(auto, unfolding(cg_tophdr::specs::TopHeader::guard_of))]
pub fn guard_of(alloc: Global, top: &str) -> Result<Text, Memory>
    ensures { IfOk result (λ t. t ≡ guard_of top.now) }
{
    let prefix = top_prefix(alloc, top)?;
    let prefix = prefix.as_str();
    let name = format!(in alloc; "_{prefix}_H_")?;
    Ok(Text::from_string(name))
}
