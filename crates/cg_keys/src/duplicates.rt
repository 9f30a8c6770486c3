//! Keys that stand twice in an object.

ghost use Rattle.std.specs.Prelude.{◌≡◌, [], ◌∷◌, cond, IfOk};
ghost use Rattle.std.specs.List.{flat_map};
ghost use Rattle.cg_docspec.specs.Tree as document;
ghost use Rattle.cg_finding.specs.Finding.{finding, first_of};
ghost use Rattle.cg_finding.specs.Found.{sees};
ghost use Rattle.cg_hjson.specs.Views.{members_of};
ghost use Rattle.cg_keys.specs.Duplicates.{duplicate_faults, repeats};

use cg_base::Memory;
use cg_finding::{Found, earlier_of};
use cg_hjson::{Kind, Member, Tree};
use std::alloc::Global;
use std::collections::HashSet;

/// Rule 20 at a member's key, unless the key is new in its object.
#[tactic(auto, using(cg_finding::proofs::Firsts::firsts))]
fn repeat_of(is_new: bool, member: &Member) -> Option<Found<'_>>
    ensures { sees result ≡ first_of (cond is_new [] (finding 2 20 member.now.key_at member.now.key ∷ [])) }
{
    if is_new {
        None
    } else {
        Some(Found::duplicate_key(member.key_at, member.key.as_str()))
    }
}

/// The first key of an object that stands before in it. Each key is looked up once.
#[tactic(auto, using(cg_finding::proofs::Firsts::firsts))]
fn first_repeat(alloc: Global, members: &[Member]) -> Result<Option<Found<'_>>, Memory>
    ensures { IfOk result (λ found. sees found ≡ first_of (repeats [] (document.members (members_of members.now)))) }
{
    let mut seen = HashSet::new(alloc);
    let mut first = None;
    for member in members {
        let is_new = seen.insert(member.key.as_str())?;
        first = earlier_of(first, repeat_of(is_new, member));
    }
    Ok(first)
}

#[cycle(duplicates)]
#[tactic(auto, using(cg_finding::proofs::Firsts::firsts))]
fn first_below_members(alloc: Global, members: &[Member]) -> Result<Option<Found<'_>>, Memory>
    ensures { IfOk result (λ found. sees found ≡ first_of (flat_map (λ m. duplicate_faults m.value) members.now)) }
{
    let mut first = None;
    for member in members {
        first = earlier_of(first, first_duplicate(alloc, &member.value)?);
    }
    Ok(first)
}

#[cycle(duplicates)]
#[tactic(auto, using(cg_finding::proofs::Firsts::firsts))]
fn first_below_items(alloc: Global, items: &[Tree]) -> Result<Option<Found<'_>>, Memory>
    ensures { IfOk result (λ found. sees found ≡ first_of (flat_map duplicate_faults items.now)) }
{
    let mut first = None;
    for item in items {
        first = earlier_of(first, first_duplicate(alloc, item)?);
    }
    Ok(first)
}

/// Rule 20: the first key that stands twice in its object, in a value or anywhere below it.
///
/// It keeps the keys of one object in a set, so it takes memory.
#[cycle(duplicates)]
#[tactic(auto, using(cg_finding::proofs::Firsts::firsts, crate::proofs::Repeats::duplicates_by_level))]
pub fn first_duplicate(alloc: Global, tree: &Tree) -> Result<Option<Found<'_>>, Memory>
    ensures { IfOk result (λ found. sees found ≡ first_of (duplicate_faults tree.now)) }
{
    match &tree.kind {
        Kind::Array(items) => Ok(first_below_items(alloc, items.as_slice())?),
        Kind::Object(members) => {
            let members = members.as_slice();
            let own = first_repeat(alloc, members)?;
            Ok(earlier_of(own, first_below_members(alloc, members)?))
        }
        _ => Ok(None),
    }
}
