//! Members that stand for base addresses.

ghost use Rattle.std.specs.Prelude.{◌≡◌, IfOk, map};
ghost use Rattle.std.specs.List.{flat_map};
ghost use Rattle.cg_finding.specs.Finding.{first_of};
ghost use Rattle.cg_finding.specs.Found.{sees};
ghost use Rattle.cg_topread.specs.Listed.{bases_faults, face_faults, faces_faults};

use crate::tables::{base_forms, bases_forms};
use cg_base::Memory;
use cg_finding::{Found, Rule, earlier_of};
use cg_hjson::Member;
use cg_keys::{first_in_members, first_in_value, first_members, members};
use std::alloc::Global;

/// What is asked of a member that stands for a base address in an address space.
#[derive(Drop)]
struct Base;

impl<'r> Rule<'r, Member> for Base {
    ghost use Rattle.cg_topread.specs.Listed.{base_faults};

    ghost faults = { λ _ member. base_faults member };

    fn first(&self, item: &'r Member) -> Option<Found<'r>> {
        first_in_value(item.key.as_str(), base_forms(), &item.value)
    }
}

/// The first that is wrong in an object of base addresses.
#[tactic(auto, unfolding(crate::specs::Listed::bases_faults))]
pub(crate) fn first_in_bases(alloc: Global, bases: &[Member]) -> Result<Option<Found<'_>>, Memory>
    ensures { IfOk result (λ found. sees found ≡ first_of (bases_faults bases.now)) }
{
    Ok(first_in_members(alloc, &Base, bases)?)
}

#[tactic(auto, unfolding(crate::specs::Listed::face_faults), using(cg_finding::proofs::Firsts::firsts))]
fn first_in_face(alloc: Global, face: &Member) -> Result<Option<Found<'_>>, Memory>
    ensures { IfOk result (λ found. sees found ≡ first_of (face_faults face.now)) }
{
    let form = first_in_value(face.key.as_str(), bases_forms(), &face.value);
    let bases = first_in_bases(alloc, members(&face.value))?;
    Ok(earlier_of(form, bases))
}

#[tactic(auto, using(cg_finding::proofs::Firsts::firsts))]
fn first_in_each_face<'a>(alloc: Global, faces: &[&'a Member]) -> Result<Option<Found<'a>>, Memory>
    ensures { IfOk result (λ found. sees found ≡ first_of (flat_map face_faults (map (λ m. m.now) faces.now))) }
{
    let mut first = None;
    for face in faces {
        first = earlier_of(first, first_in_face(alloc, face)?);
    }
    Ok(first)
}

/// The first that is wrong in an object of the base addresses of interfaces.
#[tactic(auto, unfolding(crate::specs::Listed::faces_faults))]
pub(crate) fn first_in_faces(alloc: Global, faces: &[Member]) -> Result<Option<Found<'_>>, Memory>
    ensures { IfOk result (λ found. sees found ≡ first_of (faces_faults faces.now)) }
{
    let firsts = first_members(alloc, faces)?;
    Ok(first_in_each_face(alloc, firsts.as_slice())?)
}
