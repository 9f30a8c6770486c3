//! A block, expanded.

ghost use Rattle.std.specs.Prelude.{◌≡◌, IfOk};
ghost use Rattle.cg_svspec.specs.Printable.{AllOf};
ghost use Rattle.cg_desc.specs.Items.{items_of_faces};
ghost use Rattle.cg_desc.specs.Valid.{IsValidBlock};
ghost use Rattle.cg_expand.specs.Expands.{Expands, HasValidItems};
ghost use Rattle.cg_expand.specs.Parts.Automatic.{automatic_with, has_room};

use crate::automatic::automatic_items;
use crate::early::{all_behind, first_early};
use crate::entries::items_of_faces;
use crate::late::first_in_faces;
use crate::sizes::{MOST_BITS, has_many_bits, is_too_large};
use cg_base::{List, Memory};
use cg_desc::{BlockDesc, DescFault, FaceItems};
use cg_finding::{earlier_of, refusal};
use std::alloc::Global;

/// Whether a register has room for the bits of all interrupts, and one for all alerts.
#[tactic(auto, unfolding(crate::specs::Parts::Automatic::has_room, crate::specs::Violations::interrupt_bits))]
fn has_room(block: &BlockDesc) -> bool
    ensures { result ≡ has_room block.now }
{
    !has_many_bits(block.intrs.as_slice()) && block.alerts.len() <= MOST_BITS as usize
}

/// The items of a block, where automatic registers have fields only if there is room for them.
fn made_items(alloc: Global, block: &BlockDesc) -> Result<List<FaceItems>, Memory>
    requires { IsValidBlock block.now }
    ensures { IfOk result (λ faces. faces ≡ items_of_faces (automatic_with (has_room block.now) block.now) block.now.faces) }
{
    let front = automatic_items(alloc, has_room(block), block)?;
    let faces = items_of_faces(alloc, front, block.faces.as_slice())?;
    Ok(faces)
}

/// The items of each device interface of a block: its automatic registers, and what its entries
/// stand for.
///
/// Rules 34, 38 and 42 are read: names that come twice, more than 2,048 registers and windows or
/// 4,096 fields, and more than 32 bits of interrupts or 32 alerts. The fault is the first by byte
/// place, rule and name. A block that is too large is refused without making its items, where all
/// names of its entries stand behind `at`, the place of its `registers`.
pub fn expand(alloc: Global, block: &BlockDesc) -> Result<List<FaceItems>, DescFault>
    requires valid { IsValidBlock block.now }
    ensures expands { Expands result block.now }
    ensures valid { IfOk result (λ faces. AllOf HasValidItems faces) }
{
    let too_large = is_too_large(block);
    let early = first_early(block, too_large);
    if let Some(found) = early
        && too_large
        && all_behind(block)
    {
        return Err(refusal(alloc, found, block.file));
    }
    let faces = made_items(alloc, block)?;
    match earlier_of(early, first_in_faces(alloc, faces.as_slice())?) {
        Some(found) => Err(refusal(alloc, found, block.file)),
        None => Ok(faces),
    }
}
