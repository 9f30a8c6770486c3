//! The rules on instances and their bases.

ghost use Rattle.std.specs.Prelude.{◌≡◌, ◌<◌, ◌^◌, ℕ, length, Some, slice_get};
ghost use Rattle.std.specs.Bool.{Decides};
ghost use Rattle.cg_desc.specs.Ends.{InstanceIs};
ghost use Rattle.cg_desc.specs.Merged.{BaseIs, design_of};
ghost use Rattle.cg_desc.specs.declared.top.InstDesc.{InstDesc};
ghost use Rattle.cg_finding.specs.Found.{sees};
ghost use Rattle.cg_finding.specs.Told.{TellsFirst};
ghost use Rattle.cg_merge.specs.Checks.{AreRead, BreaksListing, LacksBase, SomeBreaks};
ghost use Rattle.cg_merge.specs.Violations.{BreaksInstance, BreaksTop};

use crate::top_rules::{first_in_spaces, first_in_uses, first_unlisted, has_instance, when};
use cg_desc::{InstDesc, LaidBlock, MergedTop};
use cg_finding::{Found, earlier_of};

/// A base of an instance for a space that is not listed.
fn first_in_bases<'r>(top: &MergedTop, inst: &'r InstDesc) -> Option<Found<'r>>
    ensures { TellsFirst (sees result) (SomeBreaks (λ k b. BreaksListing top.now inst.now.at b.space) inst.now.base) }
{
    let mut first = None;
    for base in inst.base.as_slice() {
        first = earlier_of(first, first_unlisted(top, inst.at, base.space.as_str()));
    }
    first
}

/// A base of an interface of an instance for a space that is not listed.
fn first_in_face_bases<'r>(top: &MergedTop, inst: &'r InstDesc) -> Option<Found<'r>>
    ensures { TellsFirst (sees result) (SomeBreaks (λ k b. BreaksListing top.now inst.now.at b.space) inst.now.bases) }
{
    let mut first = None;
    for base in inst.bases.as_slice() {
        first = earlier_of(first, first_unlisted(top, inst.at, base.space.as_str()));
    }
    first
}

/// Whether one of the device interfaces of an instance of a block has no base.
fn lacks_one(top: &MergedTop, inst: u32, block: &LaidBlock) -> bool
    requires read { AreRead top.now }
    requires few { length block.now.faces < 2 ^ 32 }
    ensures { Decides result ((f : ℕ) × (f < length block.now.faces) × ((base : ℕ) → BaseIs top.now inst f base → ⊥)) }
{
    for face in 0..(block.faces.len() as u32) {
        if top.find_base(inst, face).is_none() {
            return true;
        }
    }
    false
}

/// Whether a device interface of an instance has no base.
fn lacks_base(top: &MergedTop, number: u32) -> bool
    requires { AreRead top.now }
    ensures { (inst : InstDesc) → InstanceIs (design_of top.now) number inst → Decides result (LacksBase top.now number inst) }
{
    match top.block_of(number) {
        Some(block) => lacks_one(top, number, block),
        None => false,
    }
}

/// An instance with the name of an earlier one, with a base for a space that is not listed, or without a base.
fn first_in_instance<'r>(top: &MergedTop, number: usize, inst: &'r InstDesc) -> Option<Found<'r>>
    requires read { AreRead top.now }
    requires there { slice_get top.now.top.insts number ≡ Some inst.now }
    requires within { number < length top.now.top.insts }
    ensures { TellsFirst (sees result) (BreaksInstance (design_of top.now) number inst.now) }
{
    let name = inst.name.as_str();
    let twice = when(
        has_instance(&top.top.insts.as_slice()[..number], name),
        Found::instance_twice(inst.at, name),
    );
    let bases = earlier_of(first_in_bases(top, inst), first_in_face_bases(top, inst));
    let missing = when(
        lacks_base(top, number as u32),
        Found::base_missing(inst.at, name),
    );
    earlier_of(twice, earlier_of(bases, missing))
}

/// What the instances break.
fn first_in_instances(top: &MergedTop) -> Option<Found<'_>>
    requires { AreRead top.now }
    ensures { TellsFirst (sees result) (SomeBreaks (BreaksInstance (design_of top.now)) top.now.top.insts) }
{
    let mut first = None;
    for (number, inst) in top.top.insts.as_slice().iter().enumerate() {
        first = earlier_of(first, first_in_instance(top, number, inst));
    }
    first
}

/// What the top's file breaks.
pub(crate) fn first_in_top(top: &MergedTop) -> Option<Found<'_>>
    requires { AreRead top.now }
    ensures { TellsFirst (sees result) (BreaksTop (design_of top.now)) }
{
    let insts = first_in_instances(top);
    earlier_of(first_in_spaces(top), earlier_of(first_in_uses(top), insts))
}
