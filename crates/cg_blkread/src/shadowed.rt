//! Rule 26 on shadowed registers: which registers cannot be shadowed.

ghost use Rattle.std.specs.Prelude.{◌≡◌, ◌∷◌, [], codes, false, unwrap_or};
ghost use Rattle.std.specs.List.{list_all, list_any};
ghost use Rattle.cg_desc.specs.AccessTable.{hardware_writes};
ghost use Rattle.cg_finding.specs.Finding.{first_of};
ghost use Rattle.cg_finding.specs.Found.{sees};
ghost use Rattle.cg_keys.specs.Elements.{elements};
ghost use Rattle.cg_keys.specs.Lookups.{boolean_at, is_fit_at};
ghost use Rattle.cg_keys.specs.declared.forms.Form.TheVariants.{Boolean, Items};
ghost use Rattle.cg_blkread.specs.Keys.{can_be_judged, cannot_be_shadowed, hardware_that_counts, is_other_than_rw, is_written_by_hardware, kinds_are_told, shadow_outside, takes_other_values};

use crate::profile::{is_true, kind_that_counts, outside_if_true};
use cg_desc::{HwAccess, SwAccess};
use cg_finding::Found;
use cg_hjson::{Member, Tree};
use cg_keys::{Form, elements, fits, hardware, is_fit_at, members, text, value_at};

/// The hardware kind that counts for a field; `None` where its word is none of the kinds.
#[tactic(auto, unfolding(crate::specs::Keys::hardware_that_counts))]
fn hardware_that_counts(register: &[Member], field: &[Member]) -> Option<HwAccess>
    ensures { result ≡ hardware_that_counts register.now field.now }
{
    match value_at(field, "hwaccess") {
        Some(tree) => hardware(text(tree)?),
        None => match value_at(register, "hwaccess") {
            Some(tree) => hardware(text(tree)?),
            None => Some(HwAccess::Hro),
        },
    }
}

/// Whether a field is an object, and the kinds that count for it have their forms.
#[tactic(auto, unfolding(crate::specs::Keys::kinds_are_told))]
fn kinds_are_told(register: &[Member], field: &Tree) -> bool
    ensures { result ≡ kinds_are_told register.now field.now }
{
    let inner = members(field);
    fits(Form::Object, field)
        && kind_that_counts(register, inner).is_some()
        && hardware_that_counts(register, inner).is_some()
}

fn all_kinds_are_told(register: &[Member], fields: &[Tree]) -> bool
    ensures { result ≡ list_all (kinds_are_told register.now) fields.now }
{
    fields.iter().all(|field| kinds_are_told(register, field))
}

/// Whether what is asked of a shadowed register has its form.
#[tactic(auto, unfolding(crate::specs::Keys::can_be_judged))]
fn can_be_judged(register: &[Member]) -> bool
    ensures { result ≡ can_be_judged register.now }
{
    is_fit_at(&[Form::Boolean], register, "hwext")
        && is_fit_at(&[Form::Items], register, "fields")
        && all_kinds_are_told(register, elements(register, "fields"))
}

fn is_other_than_rw(kind: Option<SwAccess>) -> bool
    ensures { result ≡ is_other_than_rw kind }
{
    match kind {
        Some(kind) => !matches!(kind, SwAccess::Rw),
        None => false,
    }
}

fn hardware_writes(kind: HwAccess) -> bool
    ensures { result ≡ hardware_writes kind }
{
    matches!(kind, HwAccess::Hrw | HwAccess::Hwo)
}

fn is_written_by_hardware(kind: Option<HwAccess>) -> bool
    ensures { result ≡ is_written_by_hardware kind }
{
    match kind {
        Some(kind) => hardware_writes(kind),
        None => false,
    }
}

/// Whether a field takes other values than those that software writes twice.
#[tactic(auto, unfolding(crate::specs::Keys::takes_other_values))]
fn takes_other_values(register: &[Member], field: &Tree) -> bool
    ensures { result ≡ takes_other_values register.now field.now }
{
    let inner = members(field);
    is_other_than_rw(kind_that_counts(register, inner))
        || is_written_by_hardware(hardware_that_counts(register, inner))
}

fn some_takes_other_values(register: &[Member], fields: &[Tree]) -> bool
    ensures { result ≡ list_any (takes_other_values register.now) fields.now }
{
    fields
        .iter()
        .any(|field| takes_other_values(register, field))
}

/// Whether a register has no storage, or a field that takes other values.
#[tactic(auto, unfolding(crate::specs::Keys::cannot_be_shadowed))]
fn cannot_be_shadowed(register: &[Member]) -> bool
    ensures { result ≡ cannot_be_shadowed register.now }
{
    is_true(register, "hwext") || some_takes_other_values(register, elements(register, "fields"))
}

/// A register that is shadowed, though it cannot be so.
#[tactic(auto, unfolding(crate::specs::Keys::shadow_outside), using(cg_finding::proofs::Firsts::firsts))]
pub(crate) fn shadow_outside(register: &[Member]) -> Option<Found<'static>>
    ensures { sees result ≡ first_of (shadow_outside register.now) }
{
    if can_be_judged(register) && cannot_be_shadowed(register) {
        outside_if_true(register, "shadowed")
    } else {
        None
    }
}
