//! A block with its rows at their offsets.

ghost use Rattle.std.specs.Prelude.{◌≡◌, length, zip, IfOk};
ghost use Rattle.cg_desc.specs.Items.{items_of_block};
ghost use Rattle.cg_desc.specs.Laid.{IsLaid};
ghost use Rattle.cg_desc.specs.Offsets.{IsLaidOut};
ghost use Rattle.cg_desc.specs.Valid.{IsValidItem};
ghost use Rattle.cg_finding.specs.Finding.{Finding};
ghost use Rattle.cg_layout.specs.Inner.Faces.{OneBreaks};
ghost use Rattle.cg_layout.specs.Lays.{AreLaidOut, Lays};
ghost use Rattle.cg_layout.specs.Violations.{BreaksOffsets};
ghost use Rattle.cg_svspec.specs.Printable.{AllOf};

use crate::faults::first_in_faces;
use crate::items::{is_row, words_of};
use crate::offsets::{Extent, extent_of};
use cg_base::{List, Memory, Text};
use cg_desc::{BlockDesc, DescFault, FaceDesc, FaceItems, Item, LaidBlock, LaidFace, LaidRow};
use cg_finding::refusal;
use std::alloc::Global;

/// A copy of the name, if there is one.
fn copied(name: &Option<Text>) -> Result<Option<Text>, Memory>
    ensures { IfOk result (λ copy. copy ≡ name.now) }
{
    match name {
        Some(name) => Ok(Some(name.copy()?)),
        None => Ok(None),
    }
}

/// The interface of these items, which break no rule on offsets, under the name that its description has.
fn laid_face(alloc: Global, face: &FaceDesc, items: List<Item>) -> Result<LaidFace, Memory>
    requires valid { AllOf IsValidItem items }
    requires unbroken { (f : Finding) → ¬ BreaksOffsets 0 items f }
    ensures { IfOk result (λ laid. (laid.name ≡ face.now.name) × IsLaidOut items laid) }
{
    let mut rows = List::new(alloc);
    let mut low = 0;
    let mut top = 0;
    for item in items.into_vec() {
        let Extent { first, end } = extent_of(low, &item);
        low = end;
        if is_row(&item) {
            top = end;
            rows.push(LaidRow {
                first: first as u32,
                words: words_of(&item),
                item,
            })?;
        }
    }
    Ok(LaidFace {
        name: copied(&face.name)?,
        rows,
        size: (top as u32).max(4).next_power_of_two(),
    })
}

/// The interfaces, each with its items, which break no rule on offsets.
fn laid_faces(
    alloc: Global,
    faces: &[FaceDesc],
    items: List<FaceItems>,
) -> Result<List<LaidFace>, Memory>
    requires all { length items ≡ length faces.now }
    requires valid { AllOf (λ face. AllOf IsValidItem face.items) items }
    requires unbroken { (f : Finding) → ¬ OneBreaks (zip faces.now items) f }
    ensures { IfOk result (AreLaidOut faces.now items) }
{
    let mut laid = List::new(alloc);
    for face_items in items.into_vec() {
        let face = &faces[laid.len()];
        laid.push(laid_face(alloc, face, face_items.items)?)?;
    }
    Ok(laid)
}

/// The block with its rows at their offsets.
///
/// `faces` has the items of each device interface of the block, in order, and each item is valid. The refusal is the
/// first fault of phase 5 in the block's file: rule 33 is an interface without a register and a window, 35 a `regwen`
/// that names no register of the interface, 36 one whose register is no gate, 39 a skip that leads to no word or back,
/// and 41 an item that ends past 2^24 bytes. Of 39 and 41 only the first in an interface counts. The other refusal is
/// want of memory.
pub fn lay(alloc: Global, block: BlockDesc, faces: List<FaceItems>) -> Result<LaidBlock, DescFault>
    requires expanded { faces ≡ items_of_block block }
    requires items { AllOf (λ face. AllOf IsValidItem face.items) faces }
    ensures lays { Lays result block }
    ensures laid { IfOk result (λ l. AllOf IsLaid l.faces) }
{
    if let Some(found) = first_in_faces(block.faces.as_slice(), faces.as_slice()) {
        return Err(refusal(alloc, found, block.file));
    }
    let laid = laid_faces(alloc, block.faces.as_slice(), faces)?;
    Ok(LaidBlock {
        desc: block,
        faces: laid,
    })
}
