//! Fields that share a bit with an earlier one.

ghost use Rattle.std.specs.Prelude.{◌≡◌, ◌||◌, [], Bool, List, OnOk, IfOk, false};
ghost use Rattle.std.specs.List.{list_any};
ghost use Rattle.std.specs.Option.{option_map_or};
ghost use Rattle.cg_finding.specs.Finding.{each_after, first_of};
ghost use Rattle.cg_finding.specs.Found.{sees};
ghost use Rattle.cg_blkread.specs.Seen.{HasBitsOf, are_same_bits, have_common_bit};
ghost use Rattle.cg_blkread.specs.Values.{overlap};
ghost use Rattle.cg_blkread.specs.declared.raw.Bits.{Bits};
ghost use Rattle.cg_blkread.specs.declared.raw.RawField.{RawField};

use crate::raw::{Bits, RawField};
use cg_base::{List, Memory};
use cg_finding::{Found, earlier_of};
use std::alloc::Global;

fn has_common_bit(seen: &[Bits], bits: Bits) -> bool
    ensures { result ≡ list_any (λ b. have_common_bit b bits) seen.now }
{
    seen.iter().any(|earlier| earlier.lsb <= bits.msb && bits.lsb <= earlier.msb)
}

fn is_among(seen: &[Bits], bits: Bits) -> bool
    ensures { result ≡ list_any (λ b. are_same_bits b bits) seen.now }
{
    seen.iter().any(|earlier| earlier.msb == bits.msb && earlier.lsb == bits.lsb)
}

fn shares_bit_if_any(seen: &[Bits], bits: Option<Bits>) -> bool
    ensures { result ≡ option_map_or (λ own. list_any (λ b. have_common_bit b own) seen.now) bits false }
{
    match bits {
        Some(bits) => has_common_bit(seen, bits),
        None => false,
    }
}

/// Rule 31, where a field shares a bit with these, which are those of the fields before it.
#[tactic(auto, using(cg_finding::proofs::Firsts::firsts))]
fn overlap<'a>(seen: &[Bits], field: &'a RawField) -> Option<Found<'a>>
    ensures { (before : List RawField) → HasBitsOf seen.now before → sees result ≡ first_of (overlap before field.now) }
{
    if shares_bit_if_any(seen, field.bits) {
        Some(Found::fields_overlap(field.bits_at, field.name.as_str()))
    } else {
        None
    }
}

/// Adds bits, unless they are there.
fn add_bits(seen: &mut List<Bits>, bits: Option<Bits>) -> Result<(), Memory>
    ensures { OnOk result ((test : Bits → Bool) → list_any test seen.new ≡ (list_any test seen.old || option_map_or test bits false)) }
{
    let Some(bits) = bits else {
        return Ok(());
    };
    if is_among(seen.as_slice(), bits) {
        return Ok(());
    }
    seen.push(bits)?;
    Ok(())
}

/// The first field that shares a bit with an earlier one.
///
/// Equal bits are kept once, so at most 528 pairs of a field's highest and lowest bit are looked at for each field.
pub(crate) fn first_overlap(alloc: Global, fields: &[RawField]) -> Result<Option<Found<'_>>, Memory>
    ensures { IfOk result (λ found. sees found ≡ first_of (each_after overlap [] fields.now)) }
{
    let mut seen = List::new(alloc);
    let mut first = None;
    for field in fields {
        first = earlier_of(first, overlap(seen.as_slice(), field));
        add_bits(&mut seen, field.bits)?;
    }
    Ok(first)
}
