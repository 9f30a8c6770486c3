//! The first rule that an instance breaks, or a crossbar that the top lists.

ghost use Rattle.std.specs.Prelude.{◌≡◌, IfOk};
ghost use Rattle.std.specs.List.{flat_map};
ghost use Rattle.cg_finding.specs.Finding.{first_of};
ghost use Rattle.cg_finding.specs.Found.{sees};
ghost use Rattle.cg_topread.specs.Listed.{crossbars_faults, instance_faults, instance_members_faults, instances_faults, use_faults};

use crate::bases::{first_in_bases, first_in_faces};
use crate::lists::members_at;
use crate::sources::first_in_sources;
use crate::tables::{clock_source_rows, instance_rows, reset_source_rows, use_rows};
use crate::types::first_in_types;
use cg_base::Memory;
use cg_finding::{Found, earlier_of};
use cg_hjson::{Member, Tree};
use cg_keys::{elements, first_in_elements, first_in_length, first_in_object, members};
use std::alloc::Global;

/// What is asked of the members of an instance beside their table.
#[tactic(auto, unfolding(crate::specs::Listed::instance_members_faults), using(cg_finding::proofs::Firsts::firsts))]
fn first_in_instance_members(
    alloc: Global,
    instance: &[Member],
) -> Result<Option<Found<'_>>, Memory>
    ensures { IfOk result (λ found. sees found ≡ first_of (instance_members_faults instance.now)) }
{
    let clocks = first_in_sources(
        alloc,
        clock_source_rows(),
        members_at(instance, "clock_srcs"),
    )?;
    let resets = first_in_sources(
        alloc,
        reset_source_rows(),
        members_at(instance, "reset_connections"),
    )?;
    let bases = first_in_bases(alloc, members_at(instance, "base_addr"))?;
    let faces = first_in_faces(alloc, members_at(instance, "base_addrs"))?;
    Ok(earlier_of(clocks, earlier_of(resets, earlier_of(bases, faces))))
}

/// What is asked of an instance.
#[tactic(auto, unfolding(crate::specs::Listed::instance_faults), using(cg_finding::proofs::Firsts::firsts))]
fn first_in_instance(alloc: Global, tree: &Tree) -> Result<Option<Found<'_>>, Memory>
    ensures { IfOk result (λ found. sees found ≡ first_of (instance_faults tree.now)) }
{
    let keys = first_in_object(tree, instance_rows());
    let inner = first_in_instance_members(alloc, members(tree))?;
    Ok(earlier_of(keys, inner))
}

#[tactic(auto, using(cg_finding::proofs::Firsts::firsts))]
fn first_in_each_instance(alloc: Global, items: &[Tree]) -> Result<Option<Found<'_>>, Memory>
    ensures { IfOk result (λ found. sees found ≡ first_of (flat_map instance_faults items.now)) }
{
    let mut first = None;
    for item in items {
        first = earlier_of(first, first_in_instance(alloc, item)?);
    }
    Ok(first)
}

/// What is asked of the list of instances.
#[tactic(auto, unfolding(crate::specs::Listed::instances_faults), using(cg_finding::proofs::Firsts::firsts))]
pub(crate) fn first_in_instances(alloc: Global, top: &[Member]) -> Result<Option<Found<'_>>, Memory>
    ensures { IfOk result (λ found. sees found ≡ first_of (instances_faults top.now)) }
{
    let length = first_in_length(0, 256, top, "module");
    let types = first_in_types(alloc, top)?;
    let kinds = first_in_elements(top, "module");
    let instances = first_in_each_instance(alloc, elements(top, "module"))?;
    Ok(earlier_of(length, earlier_of(types, earlier_of(kinds, instances))))
}

/// What is asked of a crossbar that the top lists.
#[tactic(auto, unfolding(crate::specs::Listed::use_faults), using(cg_finding::proofs::Firsts::firsts))]
fn first_in_use(alloc: Global, tree: &Tree) -> Result<Option<Found<'_>>, Memory>
    ensures { IfOk result (λ found. sees found ≡ first_of (use_faults tree.now)) }
{
    let keys = first_in_object(tree, use_rows());
    let clocks = members_at(members(tree), "clock_srcs");
    let sources = first_in_sources(alloc, clock_source_rows(), clocks)?;
    Ok(earlier_of(keys, sources))
}

#[tactic(auto, using(cg_finding::proofs::Firsts::firsts))]
fn first_in_each_use(alloc: Global, items: &[Tree]) -> Result<Option<Found<'_>>, Memory>
    ensures { IfOk result (λ found. sees found ≡ first_of (flat_map use_faults items.now)) }
{
    let mut first = None;
    for item in items {
        first = earlier_of(first, first_in_use(alloc, item)?);
    }
    Ok(first)
}

/// What is asked of the list of crossbars.
#[tactic(auto, unfolding(crate::specs::Listed::crossbars_faults), using(cg_finding::proofs::Firsts::firsts))]
pub(crate) fn first_in_crossbars(alloc: Global, top: &[Member]) -> Result<Option<Found<'_>>, Memory>
    ensures { IfOk result (λ found. sees found ≡ first_of (crossbars_faults top.now)) }
{
    let length = first_in_length(0, 16, top, "xbar");
    let kinds = first_in_elements(top, "xbar");
    let uses = first_in_each_use(alloc, elements(top, "xbar"))?;
    Ok(earlier_of(length, earlier_of(kinds, uses)))
}
