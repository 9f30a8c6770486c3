//! The first rule that a top's clocks, resets, pads and signals break.

ghost use Rattle.std.specs.Prelude.{◌≡◌, codes};
ghost use Rattle.cg_finding.specs.Finding.{first_of};
ghost use Rattle.cg_finding.specs.Found.{sees};
ghost use Rattle.cg_topread.specs.Listed.{at_key, clocks_faults, pinmux_faults, pinout_faults, resets_faults, sections_faults};

use crate::lists::first_in_names;
use crate::tables::{clocks_rows, pinmux_rows, pinout_rows, resets_rows, signal_rows};
use cg_finding::{Found, earlier_of};
use cg_hjson::{Member, Tree};
use cg_keys::{
    elements, first_in_each, first_in_elements, first_in_length, first_in_object, members, value_at,
};

#[tactic(auto, unfolding(crate::specs::Listed::clocks_faults), using(cg_finding::proofs::Firsts::firsts))]
fn first_in_clocks(tree: &Tree) -> Option<Found<'static>>
    ensures { sees result ≡ first_of (clocks_faults tree.now) }
{
    let clocks = members(tree);
    let keys = first_in_object(tree, clocks_rows());
    let sources = first_in_names(clocks, "srcs");
    let derived = first_in_names(clocks, "derived_srcs");
    earlier_of(keys, earlier_of(sources, derived))
}

#[tactic(auto, unfolding(crate::specs::Listed::resets_faults), using(cg_finding::proofs::Firsts::firsts))]
fn first_in_resets(tree: &Tree) -> Option<Found<'static>>
    ensures { sees result ≡ first_of (resets_faults tree.now) }
{
    let keys = first_in_object(tree, resets_rows());
    earlier_of(keys, first_in_names(members(tree), "nodes"))
}

#[tactic(auto, unfolding(crate::specs::Listed::pinout_faults), using(cg_finding::proofs::Firsts::firsts))]
fn first_in_pinout(tree: &Tree) -> Option<Found<'static>>
    ensures { sees result ≡ first_of (pinout_faults tree.now) }
{
    let pinout = members(tree);
    let keys = first_in_object(tree, pinout_rows());
    let length = first_in_length(0, 256, pinout, "pads");
    earlier_of(keys, earlier_of(length, first_in_names(pinout, "pads")))
}

#[tactic(auto, unfolding(crate::specs::Listed::pinmux_faults), using(cg_finding::proofs::Firsts::firsts))]
fn first_in_pinmux(tree: &Tree) -> Option<Found<'static>>
    ensures { sees result ≡ first_of (pinmux_faults tree.now) }
{
    let pinmux = members(tree);
    let keys = first_in_object(tree, pinmux_rows());
    let length = first_in_length(0, 1024, pinmux, "signals");
    let kinds = first_in_elements(pinmux, "signals");
    let signals = first_in_each(elements(pinmux, "signals"), signal_rows());
    earlier_of(keys, earlier_of(length, earlier_of(kinds, signals)))
}

#[tactic(auto, using(cg_finding::proofs::Firsts::firsts))]
fn first_at_clocks(top: &[Member]) -> Option<Found<'static>>
    ensures { sees result ≡ first_of (at_key clocks_faults (codes "clocks") top.now) }
{
    first_in_clocks(value_at(top, "clocks")?)
}

#[tactic(auto, using(cg_finding::proofs::Firsts::firsts))]
fn first_at_resets(top: &[Member]) -> Option<Found<'static>>
    ensures { sees result ≡ first_of (at_key resets_faults (codes "resets") top.now) }
{
    first_in_resets(value_at(top, "resets")?)
}

#[tactic(auto, using(cg_finding::proofs::Firsts::firsts))]
fn first_at_pinout(top: &[Member]) -> Option<Found<'static>>
    ensures { sees result ≡ first_of (at_key pinout_faults (codes "pinout") top.now) }
{
    first_in_pinout(value_at(top, "pinout")?)
}

#[tactic(auto, using(cg_finding::proofs::Firsts::firsts))]
fn first_at_pinmux(top: &[Member]) -> Option<Found<'static>>
    ensures { sees result ≡ first_of (at_key pinmux_faults (codes "pinmux") top.now) }
{
    first_in_pinmux(value_at(top, "pinmux")?)
}

/// What is asked of the clocks, the resets, the pads and the signals.
#[tactic(auto, unfolding(crate::specs::Listed::sections_faults), using(cg_finding::proofs::Firsts::firsts))]
pub(crate) fn first_in_sections(top: &[Member]) -> Option<Found<'static>>
    ensures { sees result ≡ first_of (sections_faults top.now) }
{
    let clocks = first_at_clocks(top);
    let resets = first_at_resets(top);
    let pinout = first_at_pinout(top);
    let pinmux = first_at_pinmux(top);
    earlier_of(clocks, earlier_of(resets, earlier_of(pinout, pinmux)))
}
