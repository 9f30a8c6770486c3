//! The first rule on bits, reset values and counts that an entry breaks.

ghost use Rattle.std.specs.Prelude.{◌≡◌, ◌==◌, ◌/◌, ◌%◌, ◌^◌, IfOk, false, is_some, nat_le};
ghost use Rattle.std.specs.List.{flat_map, list_all, list_any};
ghost use Rattle.std.specs.Option.{option_map_or};
ghost use Rattle.cg_finding.specs.Finding.{first_of};
ghost use Rattle.cg_finding.specs.Found.{sees};
ghost use Rattle.cg_blkread.specs.Values.{bad_bits, bad_count, bad_window, entry_values, has_stray_bit, holds_bit, is_count_to, is_too_wide, no_fields, register_values, stray_reset, wide_reset};

use crate::overlaps::first_overlap;
use crate::raw::{Bits, RawEntry, RawField, RawMultireg, RawRegister, RawWindow};
use cg_base::Memory;
use cg_finding::{Found, earlier_of};
use std::alloc::Global;

#[tactic(auto, using(cg_finding::proofs::Firsts::firsts))]
fn bad_bits<'a>(register: &'a str, field: &RawField) -> Option<Found<'a>>
    ensures { sees result ≡ first_of (bad_bits register.now field.now) }
{
    if field.bits.is_some() {
        None
    } else {
        Some(Found::bad_bits(field.bits_at, register))
    }
}

#[tactic(auto, using(cg_finding::proofs::Firsts::firsts))]
fn first_bad_bits<'a>(register: &'a str, fields: &[RawField]) -> Option<Found<'a>>
    ensures { sees result ≡ first_of (flat_map (bad_bits register.now) fields.now) }
{
    let mut first = None;
    for field in fields {
        first = earlier_of(first, bad_bits(register, field));
    }
    first
}

/// Whether a value does not fit so many bits.
fn passes(width: u32, value: u32) -> bool
    ensures { result ≡ nat_le (2 ^ width) value }
{
    width < 32 && value >= 1 << width
}

fn is_too_wide(bits: Option<Bits>, value: Option<u32>) -> bool
    ensures { result ≡ is_too_wide bits value }
{
    match (bits, value) {
        (Some(bits), Some(value)) => {
            passes(u32::from(bits.msb.saturating_sub(bits.lsb)) + 1, value)
        }
        _ => false,
    }
}

#[tactic(auto, using(cg_finding::proofs::Firsts::firsts))]
fn wide_reset<'a>(register: &'a str, field: &RawField) -> Option<Found<'a>>
    ensures { sees result ≡ first_of (wide_reset register.now field.now) }
{
    if is_too_wide(field.bits, field.resval) {
        Some(Found::reset_too_wide(field.resval_at, register))
    } else {
        None
    }
}

#[tactic(auto, using(cg_finding::proofs::Firsts::firsts))]
fn first_wide_reset<'a>(register: &'a str, fields: &[RawField]) -> Option<Found<'a>>
    ensures { sees result ≡ first_of (flat_map (wide_reset register.now) fields.now) }
{
    let mut first = None;
    for field in fields {
        first = earlier_of(first, wide_reset(register, field));
    }
    first
}

#[tactic(auto, using(cg_finding::proofs::Firsts::firsts))]
fn no_fields(register: &RawRegister) -> Option<Found<'_>>
    ensures { sees result ≡ first_of (no_fields register.now) }
{
    match register.fields.as_slice() {
        [] => Some(Found::no_fields(register.fields_at, register.name.as_str())),
        _ => None,
    }
}

fn are_good(fields: &[RawField]) -> bool
    ensures { result ≡ list_all (λ f. is_some f.bits) fields.now }
{
    fields.iter().all(|field| field.bits.is_some())
}

fn holds_bit(place: u32, bits: Option<Bits>) -> bool
    ensures { result ≡ holds_bit place bits }
{
    match bits {
        Some(bits) => u32::from(bits.lsb) <= place && place <= u32::from(bits.msb),
        None => false,
    }
}

fn one_holds_bit(place: u32, fields: &[RawField]) -> bool
    ensures { result ≡ list_any (λ f. holds_bit place f.bits) fields.now }
{
    fields.iter().any(|field| holds_bit(place, field.bits))
}

fn bit_is_one(value: u32, place: u32) -> bool
    ensures { result ≡ ((value / 2 ^ place) % 2 == 1) }
{
    place < 32 && value / (1 << place) % 2 == 1
}

#[tactic(auto, unfolding(crate::specs::Values::has_stray_bit))]
fn has_stray_bit(fields: &[RawField], value: u32) -> bool
    ensures { result ≡ has_stray_bit fields.now value }
{
    (0..32).any(|place: u32| bit_is_one(value, place) && !one_holds_bit(place, fields))
}

fn has_stray_reset(register: &RawRegister) -> bool
    ensures { result ≡ option_map_or (has_stray_bit register.now.fields) register.now.resval false }
{
    match register.resval {
        Some(value) => has_stray_bit(register.fields.as_slice(), value),
        None => false,
    }
}

#[tactic(auto, unfolding(crate::specs::Values::stray_reset), using(cg_finding::proofs::Firsts::firsts))]
fn stray_reset(register: &RawRegister) -> Option<Found<'_>>
    ensures { sees result ≡ first_of (stray_reset register.now) }
{
    if are_good(register.fields.as_slice()) && has_stray_reset(register) {
        Some(Found::reset_too_wide(register.resval_at, register.name.as_str()))
    } else {
        None
    }
}

/// The first rule on bits and reset values that a register breaks.
#[tactic(auto, unfolding(crate::specs::Values::register_values), using(cg_finding::proofs::Firsts::firsts))]
fn first_in_register(alloc: Global, register: &RawRegister) -> Result<Option<Found<'_>>, Memory>
    ensures { IfOk result (λ found. sees found ≡ first_of (register_values register.now)) }
{
    let name = register.name.as_str();
    let fields = register.fields.as_slice();
    let none = no_fields(register);
    let bad = first_bad_bits(name, fields);
    let shared = first_overlap(alloc, fields)?;
    let wide = first_wide_reset(name, fields);
    let stray = stray_reset(register);
    Ok(earlier_of(
        none,
        earlier_of(bad, earlier_of(shared, earlier_of(wide, stray))),
    ))
}

fn is_count_to(most: u32, count: Option<u32>) -> bool
    ensures { result ≡ is_count_to most count }
{
    match count {
        Some(count) => 0 < count && count <= most,
        None => false,
    }
}

#[tactic(auto, using(cg_finding::proofs::Firsts::firsts))]
fn bad_count(multireg: &RawMultireg) -> Option<Found<'_>>
    ensures { sees result ≡ first_of (bad_count multireg.now) }
{
    if is_count_to(4096, multireg.count) {
        None
    } else {
        Some(Found::bad_count(multireg.count_at, multireg.register.name.as_str()))
    }
}

#[tactic(auto, using(cg_finding::proofs::Firsts::firsts))]
fn bad_window(window: &RawWindow) -> Option<Found<'_>>
    ensures { sees result ≡ first_of (bad_window window.now) }
{
    if is_count_to(4_194_304, window.items) {
        None
    } else {
        Some(Found::bad_window(window.items_at, window.name.as_str()))
    }
}

/// The first rule on bits, reset values and counts that an entry breaks.
#[tactic(auto, unfolding(crate::specs::Values::entry_values), using(cg_finding::proofs::Firsts::firsts))]
fn first_in_entry(alloc: Global, entry: &RawEntry) -> Result<Option<Found<'_>>, Memory>
    ensures { IfOk result (λ found. sees found ≡ first_of (entry_values entry.now)) }
{
    match entry {
        RawEntry::Register(register) => Ok(first_in_register(alloc, register)?),
        RawEntry::Multireg(multireg) => {
            let register = first_in_register(alloc, &multireg.register)?;
            Ok(earlier_of(register, bad_count(multireg)))
        }
        RawEntry::Window(window) => Ok(bad_window(window)),
        RawEntry::SkipTo { .. } | RawEntry::Reserved { .. } => Ok(None),
    }
}

/// The first rule on bits, reset values and counts that any of the entries breaks.
#[tactic(auto, using(cg_finding::proofs::Firsts::firsts))]
pub(crate) fn first_in_values(
    alloc: Global,
    entries: &[RawEntry],
) -> Result<Option<Found<'_>>, Memory>
    ensures { IfOk result (λ found. sees found ≡ first_of (flat_map entry_values entries.now)) }
{
    let mut first = None;
    for entry in entries {
        first = earlier_of(first, first_in_entry(alloc, entry)?);
    }
    Ok(first)
}
