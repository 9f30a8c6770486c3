//! The rules on names and address spaces in a top's file.

ghost use Rattle.std.specs.Prelude.{◌≡◌, ◌≤◌, cond, length, take, Some, None};
ghost use Rattle.std.specs.List.{list_any};
ghost use Rattle.std.specs.Str.{bytes_eq};
ghost use Rattle.cg_desc.specs.Merged.{IsListed, design_of};
ghost use Rattle.cg_finding.specs.Found.{seen, sees};
ghost use Rattle.cg_finding.specs.Rules as rules;
ghost use Rattle.cg_finding.specs.Told.{TellsFirst};
ghost use Rattle.cg_merge.specs.Checks.{SomeBreaks};
ghost use Rattle.cg_merge.specs.Violations.{BreaksSpace, BreaksUse};

use cg_desc::{At, InstDesc, MergedTop, SpaceDesc, XbarUse};
use cg_finding::{Found, earlier_of};

/// What is found, where the test says so.
pub(crate) fn when<'r>(holds: bool, found: Found<'r>) -> Option<Found<'r>>
    ensures { sees result ≡ cond holds (Some (seen found.entry)) None }
{
    if holds { Some(found) } else { None }
}

fn has_space(spaces: &[SpaceDesc], name: &str) -> bool
    ensures { result ≡ list_any (λ s. bytes_eq s.name name.now) spaces.now }
{
    spaces.iter().any(|space| space.name.as_str() == name)
}

pub(crate) fn has_instance(insts: &[InstDesc], name: &str) -> bool
    ensures { result ≡ list_any (λ i. bytes_eq i.name name.now) insts.now }
{
    insts.iter().any(|inst| inst.name.as_str() == name)
}

fn has_crossbar(xbars: &[XbarUse], name: &str) -> bool
    ensures { result ≡ list_any (λ x. bytes_eq x.name name.now) xbars.now }
{
    xbars.iter().any(|xbar| xbar.name.as_str() == name)
}

/// A space with the name of an earlier one.
#[tactic(auto, using(crate::proofs::TopRules::tells_space))]
fn first_in_space<'r>(top: &MergedTop, number: usize, space: &'r SpaceDesc) -> Option<Found<'r>>
    requires { number ≤ length top.now.top.spaces }
    ensures { TellsFirst (sees result) (BreaksSpace (design_of top.now) number space.now) }
{
    let name = space.name.as_str();
    when(
        has_space(&top.top.spaces.as_slice()[..number], name),
        Found::bad_space(space.at, name),
    )
}

/// A base, or a crossbar, for a space that is not listed.
pub(crate) fn first_unlisted<'r>(top: &MergedTop, at: At, space: &'r str) -> Option<Found<'r>>
    ensures { TellsFirst (sees result) (λ f. (¬ IsListed top.now.top space.now) × (f ≡ rules.bad_space at space.now)) }
{
    when(
        !has_space(top.top.spaces.as_slice(), space),
        Found::bad_space(at, space),
    )
}

/// A crossbar in a space that is not listed, or with the name of an instance or an earlier crossbar.
fn first_in_use<'r>(top: &MergedTop, number: usize, listed: &'r XbarUse) -> Option<Found<'r>>
    requires { number ≤ length top.now.top.xbars }
    ensures { TellsFirst (sees result) (BreaksUse (design_of top.now) number listed.now) }
{
    let name = listed.name.as_str();
    let taken = has_instance(top.top.insts.as_slice(), name)
        | has_crossbar(&top.top.xbars.as_slice()[..number], name);
    let space = first_unlisted(top, listed.at, listed.space.as_str());
    earlier_of(space, when(taken, Found::instance_twice(listed.at, name)))
}

/// What the spaces break.
pub(crate) fn first_in_spaces(top: &MergedTop) -> Option<Found<'_>>
    ensures { TellsFirst (sees result) (SomeBreaks (BreaksSpace (design_of top.now)) top.now.top.spaces) }
{
    let mut first = None;
    for (number, space) in top.top.spaces.as_slice().iter().enumerate() {
        first = earlier_of(first, first_in_space(top, number, space));
    }
    first
}

/// What the listed crossbars break.
pub(crate) fn first_in_uses(top: &MergedTop) -> Option<Found<'_>>
    ensures { TellsFirst (sees result) (SomeBreaks (BreaksUse (design_of top.now)) top.now.top.xbars) }
{
    let mut first = None;
    for (number, listed) in top.top.xbars.as_slice().iter().enumerate() {
        first = earlier_of(first, first_in_use(top, number, listed));
    }
    first
}
