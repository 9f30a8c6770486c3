//! What a block breaks that is found without making its items.

ghost use Rattle.std.specs.Prelude.{◌≡◌, ◌++◌, map};
ghost use Rattle.std.specs.List.{list_all};
ghost use Rattle.cg_desc.specs.Items.{items_of_block};
ghost use Rattle.cg_finding.specs.Finding.{first_of};
ghost use Rattle.cg_finding.specs.Found.{sees};
ghost use Rattle.cg_expand.specs.Parts.Labels.{is_behind, labels_twice};
ghost use Rattle.cg_expand.specs.Parts.Faults.{alert_faults, all_behind, bits_faults, early_faults, entry_behind, interrupt_faults, list_faults, register_behind, size_faults};
ghost use Rattle.cg_expand.specs.Parts.Sizes.{is_too_large};

use crate::labels::{Labelled, first_repeat};
use crate::sizes::{MOST_BITS, has_many_bits};
use cg_desc::{At, BlockDesc, FieldDesc, RegDesc, Written};
use cg_finding::{Found, earlier_of};

/// Whether all of these stand behind a place.
fn are_behind<L: Labelled>(at: At, labelled: &[L]) -> bool
    ensures { result ≡ list_all (is_behind at) (map L.of labelled.now) }
{
    for item in labelled {
        if item.label().at.byte <= at.byte {
            return false;
        }
    }
    true
}

/// Rule 42, where a list has too many bits.
#[tactic(auto, unfolding(crate::specs::Parts::Faults::bits_faults), using(cg_finding::proofs::Firsts::firsts))]
fn too_many_bits<'a>(many: bool, at: At) -> Option<Found<'a>>
    ensures { sees result ≡ first_of (bits_faults many at) }
{
    if many {
        Some(Found::too_many_interrupt_bits(at))
    } else {
        None
    }
}

/// The first that a list of interrupts or alerts breaks where its register is there: too many bits,
/// or names that come twice.
///
/// A list with too many bits is read for names only where one of them may come first.
#[tactic(auto, using(cg_finding::proofs::Firsts::firsts, crate::proofs::Later::many_first))]
fn first_in_present<L: Labelled>(many: bool, at: At, labelled: &[L]) -> Option<Found<'_>>
    ensures { sees result ≡ first_of (bits_faults many at ++ labels_twice (map L.of labelled.now)) }
{
    let found = too_many_bits(many, at);
    if many && are_behind(at, labelled) {
        found
    } else {
        earlier_of(found, first_repeat(labelled))
    }
}

/// The first that a list of interrupts or alerts breaks; names count only where its register is there.
#[tactic(auto, unfolding(crate::specs::Parts::Faults::list_faults))]
fn first_in_list<L: Labelled>(
    many: bool,
    at: At,
    present: bool,
    labelled: &[L],
) -> Option<Found<'_>>
    ensures { sees result ≡ first_of (list_faults many at present (map L.of labelled.now)) }
{
    if present {
        first_in_present(many, at, labelled)
    } else {
        too_many_bits(many, at)
    }
}

#[tactic(auto, unfolding(crate::specs::Parts::Faults::interrupt_faults, crate::specs::Violations::interrupt_bits))]
fn first_in_interrupts(block: &BlockDesc) -> Option<Found<'_>>
    ensures { sees result ≡ first_of (interrupt_faults block.now) }
{
    let interrupts = block.intrs.as_slice();
    let present = !block.faces.is_empty() && block.auto_intr;
    first_in_list(
        has_many_bits(interrupts),
        block.intrs_at,
        present,
        interrupts,
    )
}

#[tactic(auto, unfolding(crate::specs::Parts::Faults::alert_faults))]
fn first_in_alerts(block: &BlockDesc) -> Option<Found<'_>>
    ensures { sees result ≡ first_of (alert_faults block.now) }
{
    let alerts = block.alerts.as_slice();
    let present = !block.faces.is_empty() && block.auto_alert;
    let many = alerts.len() > MOST_BITS as usize;
    first_in_list(many, block.alerts_at, present, alerts)
}

/// Rule 38, where a block is too large.
#[tactic(auto, unfolding(crate::specs::Parts::Faults::size_faults), using(cg_finding::proofs::Firsts::firsts))]
fn first_in_size(block: &BlockDesc, too_large: bool) -> Option<Found<'_>>
    requires { too_large ≡ is_too_large (items_of_block block.now) }
    ensures { sees result ≡ first_of (size_faults block.now) }
{
    if too_large {
        Some(Found::too_many(block.at))
    } else {
        None
    }
}

/// The first that a block breaks by its counts, and by the names of its interrupts and alerts.
///
/// `too_large` tells whether it has too many rows or fields.
#[tactic(auto, unfolding(crate::specs::Parts::Faults::early_faults), using(cg_finding::proofs::Firsts::firsts))]
pub fn first_early(block: &BlockDesc, too_large: bool) -> Option<Found<'_>>
    requires { too_large ≡ is_too_large (items_of_block block.now) }
    ensures { sees result ≡ first_of (early_faults block.now) }
{
    earlier_of(
        first_in_interrupts(block),
        earlier_of(first_in_alerts(block), first_in_size(block, too_large)),
    )
}

/// Whether the register, and each of its fields, stands behind a place.
fn register_behind(at: At, register: &RegDesc) -> bool
    ensures { result ≡ register_behind at register.now }
{
    at.byte < register.at.byte && are_behind(at, register.fields.as_slice())
}

fn entry_behind(at: At, entry: &Written) -> bool
    ensures { result ≡ entry_behind at entry.now }
{
    match entry {
        Written::Reg(register) => register_behind(at, register),
        Written::Multi(multireg) => register_behind(at, &multireg.reg),
        Written::Window(window) => at.byte < window.at.byte,
        Written::SkipTo { .. } | Written::Reserved { .. } => true,
    }
}

fn entries_behind(at: At, entries: &[Written]) -> bool
    ensures { result ≡ list_all (entry_behind at) entries.now }
{
    entries.iter().all(|entry| entry_behind(at, entry))
}

/// Whether all names that are written in entries stand behind the place of `registers`.
#[tactic(auto, unfolding(crate::specs::Parts::Faults::all_behind))]
pub fn all_behind(block: &BlockDesc) -> bool
    ensures { result ≡ all_behind block.now }
{
    let at = block.at;
    block
        .faces
        .as_slice()
        .iter()
        .all(|face| entries_behind(at, face.entries.as_slice()))
}
