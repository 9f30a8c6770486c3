//! The connections of a crossbar, where of two with one key the first counts.

ghost use Rattle.std.specs.Prelude.{◌≡◌, IfOk, map};
ghost use Rattle.std.specs.List.{flat_map};
ghost use Rattle.cg_finding.specs.Finding.{first_of};
ghost use Rattle.cg_finding.specs.Found.{sees};
ghost use Rattle.cg_keys.specs.Lists.{first_members};
ghost use Rattle.cg_xbread.specs.Listed.{connection_faults};

use cg_base::Memory;
use cg_finding::{Found, earlier_of};
use cg_hjson::Member;
use cg_keys::{Form, first_in_list, first_in_value, first_members};
use std::alloc::Global;

/// Rule 22 at a connection that is no list, or has an element that is no string.
#[tactic(auto, unfolding(crate::specs::Listed::connection_faults), using(cg_finding::proofs::Firsts::firsts))]
fn first_in_connection(member: &Member) -> Option<Found<'_>>
    ensures { sees result ≡ first_of (connection_faults member.now) }
{
    let key = member.key.as_str();
    earlier_of(
        first_in_value(key, &[Form::Items], &member.value),
        first_in_list(Form::Text, key, &member.value),
    )
}

#[tactic(auto, using(cg_finding::proofs::Firsts::firsts))]
fn first_in_each_connection<'a>(members: &[&'a Member]) -> Option<Found<'a>>
    ensures { sees result ≡ first_of (flat_map connection_faults (map (λ m. m.now) members.now)) }
{
    let mut first = None;
    for member in members {
        first = earlier_of(first, first_in_connection(member));
    }
    first
}

/// What is asked of the kinds of connections.
pub(crate) fn first_in_connections(
    alloc: Global,
    connections: &[Member],
) -> Result<Option<Found<'_>>, Memory>
    ensures { IfOk result (λ found. sees found ≡ first_of (flat_map connection_faults (first_members connections.now))) }
{
    let firsts = first_members(alloc, connections)?;
    Ok(first_in_each_connection(firsts.as_slice()))
}
