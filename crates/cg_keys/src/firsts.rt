//! The first members of each key, and the first that any of them breaks.

ghost use Rattle.std.specs.Prelude.{◌≡◌, IfOk, map};
ghost use Rattle.std.specs.List.{flat_map};
ghost use Rattle.cg_finding.specs.Finding.{first_of};
ghost use Rattle.cg_finding.specs.Found.{sees};
ghost use Rattle.cg_keys.specs.Lists.{first_members};

use cg_base::Memory;
use cg_finding::{Found, Rule, earlier_of};
use cg_hjson::Member;
use std::alloc::Global;
use std::collections::HashSet;

/// The members of an object but for those whose key an earlier one has.
///
/// Each key is looked up once, in a set.
pub fn first_members(alloc: Global, members: &[Member]) -> Result<Vec<&Member>, Memory>
    ensures { IfOk result (λ firsts. map (λ m. m.now) firsts.items ≡ first_members members.now) }
{
    let mut seen = HashSet::new(alloc);
    let mut firsts = Vec::new(alloc);
    for member in members {
        let key = member.key.as_str();
        if !seen.insert(key)? {
            continue;
        }
        firsts.push(member)?;
    }
    Ok(firsts)
}

#[tactic(auto, using(cg_finding::proofs::Firsts::firsts))]
fn first_in_all_of<'a, R: Rule<'a, Member>>(rule: &R, members: &[&'a Member]) -> Option<Found<'a>>
    ensures { sees result ≡ first_of (flat_map (R.faults rule.now) (map (λ m. m.now) members.now)) }
{
    let mut first = None;
    for member in members {
        first = earlier_of(first, rule.first(member));
    }
    first
}

/// The first that any of the members breaks by a rule, but for those whose key an earlier one has.
///
/// Keys are kept in a set, so it takes memory.
pub fn first_in_members<'a, R: Rule<'a, Member>>(
    alloc: Global,
    rule: &R,
    members: &'a [Member],
) -> Result<Option<Found<'a>>, Memory>
    ensures { IfOk result (λ found. sees found ≡ first_of (flat_map (R.faults rule.now) (first_members members.now))) }
{
    let firsts = first_members(alloc, members)?;
    Ok(first_in_all_of(rule, firsts.as_slice()))
}
