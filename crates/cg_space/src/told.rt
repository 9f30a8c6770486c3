//! The first fault of all nodes, by their verdicts.

ghost use Rattle.std.specs.Prelude.{◌≡◌, ◌<◌, true, IfOk, length};
ghost use Rattle.cg_desc.specs.Ends.{CrossbarIs};
ghost use Rattle.cg_desc.specs.Merged.{design_of};
ghost use Rattle.cg_desc.specs.declared.crossbar.XbarDesc.{XbarDesc as Crossbar};
ghost use Rattle.cg_finding.specs.Found.{seen, sees};
ghost use Rattle.cg_finding.specs.Told.{TellsFirst};
ghost use Rattle.cg_space.specs.Inner.Sound.{IsSound};
ghost use Rattle.cg_space.specs.Inner.Verdicts.{CrossbarTells, FaultOf, FaultOfAll, HaveCounts, IsEarlier, IsFirstIfAny, Judges, Tells};

use crate::nodes::{node_at, node_count};
use crate::verdict::Verdict;
use cg_base::{List, Memory};
use cg_desc::{DescFault, Fault, MergedTop, NodeDesc};
use cg_finding::{Found, earlier_of, refusal};
use std::alloc::Global;

/// A found fault, where it is one.
fn found_if(is_broken: bool, found: Found<'_>) -> Option<Found<'_>>
    ensures { TellsFirst (sees result) (λ f. (is_broken ≡ true) × (f ≡ seen found.entry)) }
{
    if !is_broken {
        return None;
    }
    Some(found)
}

/// The first that is told of a node.
fn first_of_node<'a>(node: &'a NodeDesc, verdict: Verdict) -> Option<Found<'a>>
    ensures { TellsFirst (sees result) (Tells node.now verdict) }
{
    let name = node.name.as_str();
    let circle = found_if(
        verdict.is_in_circle,
        Found::crossbars_in_a_circle(node.at, name),
    );
    let range = found_if(verdict.is_bad, Found::bad_range(node.at, name));
    let overlap = found_if(verdict.is_shared, Found::ranges_overlap(node.at, name));
    earlier_of(circle, earlier_of(range, overlap))
}

/// The first that is told of a crossbar's nodes.
fn first_of_crossbar<'a>(top: &'a MergedTop, xbar: usize, verdicts: &[Verdict]) -> Option<Found<'a>>
    requires sound { IsSound top.now }
    requires there { xbar < length top.now.xbars }
    requires all { (x : Crossbar) → CrossbarIs (design_of top.now) xbar x → length verdicts.now ≡ length x.nodes }
    ensures { TellsFirst (sees result) (CrossbarTells top.now xbar verdicts.now) }
{
    let mut first = None;
    for node in 0..node_count(top, xbar) {
        let of_node = first_of_node(node_at(top, xbar, node), verdicts[node]);
        first = earlier_of(first, of_node);
    }
    first
}

/// The first fault of a crossbar's file, if there is one.
fn fault_of_crossbar(
    alloc: Global,
    top: &MergedTop,
    xbar: usize,
    verdicts: &[Verdict],
) -> Result<Option<Fault>, Memory>
    requires sound { IsSound top.now }
    requires there { xbar < length top.now.xbars }
    requires all { (x : Crossbar) → CrossbarIs (design_of top.now) xbar x → length verdicts.now ≡ length x.nodes }
    ensures { IfOk result (IsFirstIfAny (FaultOf top.now xbar verdicts.now)) }
{
    let Some(found) = first_of_crossbar(top, xbar, verdicts) else {
        return Ok(None);
    };
    match refusal(alloc, found, top.xbars.as_slice()[xbar].file) {
        DescFault::Fault(fault) => Ok(Some(fault)),
        DescFault::Memory => Err(Memory),
    }
}

/// The earlier of two faults, as far as there are two.
fn earlier_fault(first: Option<Fault>, second: Option<Fault>) -> Option<Fault>
    ensures { IsEarlier first second result }
{
    match (first, second) {
        (None, second) => second,
        (Some(first), None) => Some(first),
        (Some(first), Some(second)) => {
            if second.before(&first) {
                return Some(second);
            }
            Some(first)
        }
    }
}

/// The first fault of all crossbars, each with the verdicts of its nodes.
pub fn first_fault(
    alloc: Global,
    top: &MergedTop,
    verdicts: &[List<Verdict>],
) -> Result<(), DescFault>
    requires sound { IsSound top.now }
    requires all { HaveCounts top.now verdicts.now }
    ensures { Judges result (FaultOfAll top.now verdicts.now) }
{
    let mut first = None;
    for xbar in 0..top.xbars.len() {
        match fault_of_crossbar(alloc, top, xbar, verdicts[xbar].as_slice()) {
            Ok(fault) => first = earlier_fault(first, fault),
            Err(_) => return Err(DescFault::Memory),
        }
    }
    match first {
        Some(fault) => Err(DescFault::Fault(fault)),
        None => Ok(()),
    }
}
