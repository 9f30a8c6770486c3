//! What the items of a block break.

ghost use Rattle.std.specs.Prelude.{◌≡◌, IfOk};
ghost use Rattle.std.specs.List.{flat_map};
ghost use Rattle.cg_finding.specs.Finding.{first_of};
ghost use Rattle.cg_finding.specs.Found.{sees};
ghost use Rattle.cg_expand.specs.Parts.Faults.{face_faults, fields_of, fields_twice, none_known};
ghost use Rattle.cg_expand.specs.Parts.Names.{names_twice};

use crate::labels::first_repeat;
use crate::names::{Names, first_known};
use cg_base::Memory;
use cg_desc::{FaceItems, FieldDesc, Item};
use cg_finding::{Found, Rule, earlier_of, first_in_all};
use std::alloc::Global;

/// The fields of an item; a window, a skip and a reservation have none.
fn fields_of(item: &Item) -> &[FieldDesc]
    ensures { result.now ≡ fields_of item.now }
{
    match item {
        Item::Reg(register) => register.fields.as_slice(),
        Item::Window(_) | Item::SkipTo { .. } | Item::Reserved { .. } => &[],
    }
}

/// The rule that the names of a register's fields do not come twice.
struct FieldNames;

impl<'r> Rule<'r, Item> for FieldNames {
    ghost faults = { λ rule item. fields_twice item };

    fn first(&self, item: &'r Item) -> Option<Found<'r>> {
        first_repeat(fields_of(item))
    }
}

/// The first item whose name an earlier one has.
fn first_item<'a>(alloc: Global, items: &'a [Item]) -> Result<Option<Found<'a>>, Memory>
    ensures { IfOk result (λ found. sees found ≡ first_of (names_twice none_known items.entry.now)) }
{
    let found = first_known(Names::new(alloc), items)?;
    Ok(found)
}

/// The first name of an item, or of a field in its register, that comes twice in an interface.
#[tactic(auto, using(cg_finding::proofs::Firsts::firsts))]
fn first_in_face<'a>(alloc: Global, face: &'a FaceItems) -> Result<Option<Found<'a>>, Memory>
    ensures { IfOk result (λ found. sees found ≡ first_of (face_faults face.entry.now)) }
{
    let items = face.items.as_slice();
    let first = first_item(alloc, items)?;
    Ok(earlier_of(first, first_in_all(&FieldNames, items)))
}

/// The first name that comes twice in any interface.
#[tactic(auto, using(cg_finding::proofs::Firsts::firsts))]
pub fn first_in_faces<'a>(
    alloc: Global,
    faces: &'a [FaceItems],
) -> Result<Option<Found<'a>>, Memory>
    ensures { IfOk result (λ found. sees found ≡ first_of (flat_map face_faults faces.entry.now)) }
{
    let mut first = None;
    for face in faces {
        first = earlier_of(first, first_in_face(alloc, face)?);
    }
    Ok(first)
}
