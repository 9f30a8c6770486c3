//! Rule 26: what is outside the profile.

ghost use Rattle.std.specs.Prelude.{◌≡◌, ◌&&◌, ◌||◌, [], ◌∷◌, codes, false, length, nat_lt, option_and_then, unwrap_or};
ghost use Rattle.std.specs.List.{list_all};
ghost use Rattle.std.specs.Option.{option_map_or};
ghost use Rattle.cg_finding.specs.Finding.{first_of};
ghost use Rattle.cg_finding.specs.Found.{sees};
ghost use Rattle.cg_keys.specs.Elements.{elements};
ghost use Rattle.cg_keys.specs.Forms.{fits};
ghost use Rattle.cg_keys.specs.Lookups.{boolean_at, is_fit_at};
ghost use Rattle.cg_keys.specs.Table.{value_at};
ghost use Rattle.cg_keys.specs.Values.{array_in};
ghost use Rattle.cg_keys.specs.declared.forms.Form.TheVariants.{Boolean, Object};
ghost use Rattle.cg_blkread.specs.Bits.{bits_in};
ghost use Rattle.cg_blkread.specs.Keys.{compact_outside, fields_are_objects, has_other_kind, has_other_width, kind_that_counts, mubi_outside, outside_if_true, outside_key, protocol_outside, register_outside, takes_mubi, width_outside};

use crate::bits::bits;
use crate::raw::Bits;
use crate::shadowed::shadow_outside;
use cg_desc::SwAccess;
use cg_finding::{Found, earlier_of};
use cg_hjson::{Member, Tree};
use cg_keys::{
    Form, array, boolean_at, elements, fits, is_fit_at, members, number_at, software, text,
    text_at, value_at,
};

/// A key whose presence alone is outside the profile.
#[tactic(auto, unfolding(crate::specs::Keys::outside_key), using(cg_finding::proofs::Firsts::firsts))]
pub(crate) fn outside_key<'a>(members: &[Member], key: &'a str) -> Option<Found<'a>>
    ensures { sees result ≡ first_of (outside_key members.now key.now) }
{
    let tree = value_at(members, key)?;
    Some(Found::outside_the_profile(tree.at, key))
}

pub(crate) fn is_true(members: &[Member], key: &str) -> bool
    ensures { result ≡ unwrap_or (boolean_at key.now members.now) false }
{
    boolean_at(members, key).unwrap_or(false)
}

/// A key that is outside the profile where it is true.
#[tactic(auto, unfolding(crate::specs::Keys::outside_if_true), using(cg_finding::proofs::Firsts::firsts))]
pub(crate) fn outside_if_true<'a>(members: &[Member], key: &'a str) -> Option<Found<'a>>
    ensures { sees result ≡ first_of (outside_if_true members.now key.now) }
{
    if is_true(members, key) {
        outside_key(members, key)
    } else {
        None
    }
}

/// A register that is shadowed and cannot be so, asynchronous or an alias.
#[tactic(auto, unfolding(crate::specs::Keys::register_outside), using(cg_finding::proofs::Firsts::firsts))]
pub(crate) fn register_outside(register: &[Member]) -> Option<Found<'static>>
    ensures { sees result ≡ first_of (register_outside register.now) }
{
    let shadowed = shadow_outside(register);
    let asynchronous = outside_key(register, "async");
    let synchronous = outside_key(register, "sync");
    let alias = outside_key(register, "alias_target");
    earlier_of(
        shadowed,
        earlier_of(asynchronous, earlier_of(synchronous, alias)),
    )
}

/// The software kind that counts for a field; `None` where its word is none of the kinds.
#[tactic(auto, unfolding(crate::specs::Keys::kind_that_counts))]
pub(crate) fn kind_that_counts(register: &[Member], field: &[Member]) -> Option<SwAccess>
    ensures { result ≡ kind_that_counts register.now field.now }
{
    match value_at(field, "swaccess") {
        Some(tree) => software(text(tree)?),
        None => match value_at(register, "swaccess") {
            Some(tree) => software(text(tree)?),
            None => Some(SwAccess::Nothing),
        },
    }
}

fn takes_mubi(kind: SwAccess) -> bool
    ensures { result ≡ takes_mubi kind }
{
    matches!(kind, SwAccess::Ro | SwAccess::Rw | SwAccess::Wo)
}

fn has_other_kind(kind: Option<SwAccess>) -> bool
    ensures { result ≡ has_other_kind kind }
{
    match kind {
        Some(kind) => !takes_mubi(kind),
        None => false,
    }
}

fn bits_of(field: &[Member]) -> Option<Bits>
    ensures { result ≡ option_and_then bits_in (value_at (codes "bits") field.now) }
{
    bits(value_at(field, "bits")?)
}

fn has_other_width(bits: Option<Bits>) -> bool
    ensures { result ≡ has_other_width bits }
{
    match bits {
        Some(bits) => bits.msb.saturating_sub(bits.lsb) != 3,
        None => false,
    }
}

/// A multi-bit boolean that has other than four bits, or another software kind than `ro`, `rw` and `wo`.
#[tactic(auto, unfolding(crate::specs::Keys::mubi_outside), using(cg_finding::proofs::Firsts::firsts))]
pub(crate) fn mubi_outside(register: &[Member], field: &[Member]) -> Option<Found<'static>>
    ensures { sees result ≡ first_of (mubi_outside register.now field.now) }
{
    if has_other_width(bits_of(field)) || has_other_kind(kind_that_counts(register, field)) {
        outside_if_true(field, "mubi")
    } else {
        None
    }
}

fn are_objects(items: &[Tree]) -> bool
    ensures { result ≡ list_all (fits Object) items.now }
{
    items.iter().all(|item| fits(Form::Object, item))
}

fn is_list_of_objects(tree: &Tree) -> bool
    ensures { result ≡ option_map_or (list_all (fits Object)) (array_in tree.now) false }
{
    match array(tree) {
        Some(items) => are_objects(items),
        None => false,
    }
}

/// Whether `fields` is a list of objects.
#[tactic(auto, unfolding(crate::specs::Keys::fields_are_objects))]
fn fields_are_objects(register: &[Member]) -> bool
    ensures { result ≡ fields_are_objects register.now }
{
    match value_at(register, "fields") {
        Some(tree) => is_list_of_objects(tree),
        None => false,
    }
}

fn are_apart(multireg: &[Member]) -> bool
    ensures { result ≡ (nat_lt 1 (length (elements (codes "fields") multireg.now)) || unwrap_or (boolean_at (codes "regwen_multi") multireg.now) false) }
{
    elements(multireg, "fields").len() > 1 || is_true(multireg, "regwen_multi")
}

/// Whether copies are not to be compacted: those of several fields, or each with a gate of its own.
fn is_not_compact(multireg: &[Member]) -> bool
    ensures { result ≡ (fields_are_objects multireg.now && (is_fit_at (Boolean ∷ []) (codes "regwen_multi") multireg.now
        && (nat_lt 1 (length (elements (codes "fields") multireg.now)) || unwrap_or (boolean_at (codes "regwen_multi") multireg.now) false))) }
{
    fields_are_objects(multireg)
        && is_fit_at(&[Form::Boolean], multireg, "regwen_multi")
        && are_apart(multireg)
}

/// Copies that `compact` names, though they are not to be compacted.
#[tactic(auto, unfolding(crate::specs::Keys::compact_outside), using(cg_finding::proofs::Firsts::firsts))]
pub(crate) fn compact_outside(multireg: &[Member]) -> Option<Found<'static>>
    ensures { sees result ≡ first_of (compact_outside multireg.now) }
{
    if is_not_compact(multireg) {
        outside_if_true(multireg, "compact")
    } else {
        None
    }
}

/// A width of registers other than 32 bits.
#[tactic(auto, unfolding(crate::specs::Keys::width_outside), using(cg_finding::proofs::Firsts::firsts))]
pub(crate) fn width_outside(block: &[Member]) -> Option<Found<'static>>
    ensures { sees result ≡ first_of (width_outside block.now) }
{
    let width = number_at(0, u64::from(u32::MAX), block, "regwidth")?;
    if width == 32 {
        None
    } else {
        outside_key(block, "regwidth")
    }
}

/// An interface that speaks another protocol than TL-UL.
#[tactic(auto, unfolding(crate::specs::Keys::protocol_outside), using(cg_finding::proofs::Firsts::firsts))]
pub(crate) fn protocol_outside(interface: &Tree) -> Option<Found<'static>>
    ensures { sees result ≡ first_of (protocol_outside interface.now) }
{
    let interface = members(interface);
    let protocol = text_at(interface, "protocol")?;
    if protocol == "tlul" {
        None
    } else {
        outside_key(interface, "protocol")
    }
}
