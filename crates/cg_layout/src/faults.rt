//! What a block breaks of the rules on offsets and gates, and which of it comes first.

ghost use Rattle.std.specs.Prelude.{◌≡◌, length, zip};
ghost use Rattle.cg_desc.specs.Valid.{IsValidItem};
ghost use Rattle.cg_finding.specs.Finding.{finding};
ghost use Rattle.cg_finding.specs.Found.{sees};
ghost use Rattle.cg_layout.specs.Inner.Faces.{OneBreaks};
ghost use Rattle.cg_finding.specs.Told.{TellsFirst};
ghost use Rattle.cg_layout.specs.Violations.{BreaksIn, BreaksOffsets, HasNoRow, name_or_empty};
ghost use Rattle.cg_svspec.specs.Printable.{AllOf};

use crate::gates::first_in_gates;
use crate::items::{has_row, own_name, place_of};
use crate::offsets::{extent_of, is_skip_back};
use cg_base::Text;
use cg_desc::{FaceDesc, FaceItems, Item};
use cg_finding::{Found, earlier_of};

/// The largest offset at which an item of an interface ends, in bytes.
const END_LIMIT: u64 = 1 << 24;

/// The name, or an empty one where there is none.
fn name_or_empty(name: &Option<Text>) -> &str
    ensures { result.now ≡ name_or_empty name.now }
{
    match name {
        Some(name) => name.as_str(),
        None => "",
    }
}

/// An interface without a register and a window.
fn first_without_row<'r>(face: &'r FaceDesc, items: &'r [Item]) -> Option<Found<'r>>
    ensures { TellsFirst (sees result) (λ f. HasNoRow items.now × (f ≡ finding 5 33 face.now.at (name_or_empty face.now.name))) }
{
    if has_row(items) {
        return None;
    }
    Some(Found::no_items(face.at, name_or_empty(&face.name)))
}

/// The first item that skips back or ends past the limit; nothing is looked for behind it.
fn first_in_offsets<'r>(items: &'r [Item]) -> Option<Found<'r>>
    requires { AllOf IsValidItem items.now }
    ensures { TellsFirst (sees result) (BreaksOffsets 0 items.now) }
{
    let mut low = 0;
    for item in items {
        if is_skip_back(low, item) {
            return Some(Found::skip_back(place_of(item)));
        }
        low = extent_of(low, item).end;
        if low > END_LIMIT {
            return Some(Found::past_the_end(place_of(item), own_name(item)));
        }
    }
    None
}

/// The first that the interface breaks.
fn first_in_face<'r>(face: &'r FaceDesc, items: &'r [Item]) -> Option<Found<'r>>
    requires { AllOf IsValidItem items.now }
    ensures { TellsFirst (sees result) (BreaksIn face.now items.now) }
{
    let in_items = earlier_of(first_in_gates(items), first_in_offsets(items));
    earlier_of(first_without_row(face, items), in_items)
}

/// The first that one of the interfaces breaks, each with its items.
pub fn first_in_faces<'r>(faces: &'r [FaceDesc], items: &'r [FaceItems]) -> Option<Found<'r>>
    requires all { length items.now ≡ length faces.now }
    requires valid { AllOf (λ face. AllOf IsValidItem face.items) items.now }
    ensures { TellsFirst (sees result) (OneBreaks (zip faces.now items.now)) }
{
    let mut first = None;
    for (number, face) in faces.iter().enumerate() {
        let in_face = first_in_face(face, items[number].items.as_slice());
        first = earlier_of(first, in_face);
    }
    first
}
