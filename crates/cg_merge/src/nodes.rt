//! The rules on the nodes of a top's crossbars.

ghost use Rattle.std.specs.Prelude.{◌≡◌, ◌≤◌, ℕ, false, true, length, slice_get, Some};
ghost use Rattle.std.specs.Bool.{Decides};
ghost use Rattle.std.specs.List.{list_any};
ghost use Rattle.std.specs.Option.{option_copied};
ghost use Rattle.cg_desc.specs.Ends.{CrossbarIs};
ghost use Rattle.cg_desc.specs.Merged.{design_of};
ghost use Rattle.cg_finding.specs.Found.{sees};
ghost use Rattle.cg_finding.specs.Told.{TellsFirst};
ghost use Rattle.cg_merge.specs.Checks.{AreRead};
ghost use Rattle.cg_merge.specs.Nodes.{IsBefore, IsElsewhere, NamesNothing, is_spelled};
ghost use Rattle.cg_merge.specs.Violations.{BreaksCrossbar, BreaksNode};

use crate::ends::{is_elsewhere, joins_one};
use crate::interfaces::{Before, names_face, repeats_one};
use crate::spelling::same_spelling;
use crate::top_rules::when;
use cg_desc::{MergedTop, NodeDesc, XbarDesc, XbarUse};
use cg_finding::{Found, earlier_of};

/// Whether a node that stands for no crossbar has the spelling of a name.
#[tactic(auto, unfolding(crate::specs::Nodes::is_spelled))]
fn is_spelled(name: &str, node: &NodeDesc) -> bool
    ensures { result ≡ is_spelled name.now node.now }
{
    if node.xbar {
        return false;
    }
    same_spelling(node.name.as_str(), name)
}

fn one_spelled(name: &str, nodes: &[NodeDesc]) -> bool
    ensures { result ≡ list_any (is_spelled name.now) nodes.now }
{
    nodes.iter().any(|node| is_spelled(name, node))
}

fn spelled_before(name: &str, xbars: &[XbarDesc]) -> bool
    ensures { result ≡ list_any (λ xbar. list_any (is_spelled name.now) xbar.nodes) xbars.now }
{
    xbars
        .iter()
        .any(|xbar| one_spelled(name, xbar.nodes.as_slice()))
}

/// Whether a node is a device that names no interface and has no range.
fn is_unknown(top: &MergedTop, node: &NodeDesc) -> bool
    requires { AreRead top.now }
    ensures { Decides result (NamesNothing (design_of top.now) node.now) }
{
    if node.host {
        return false;
    }
    if !node.ranges.is_empty() {
        return false;
    }
    !names_face(top, node)
}

/// A node that stands for no crossbar.
fn first_in_plain<'r>(top: &MergedTop, before: &Before, node: &'r NodeDesc) -> Option<Found<'r>>
    requires read { AreRead top.now }
    requires plain { node.now.xbar ≡ false }
    ensures { (x n : ℕ) → IsBefore (design_of top.now) x n before.now.xbars.now before.now.nodes.now → TellsFirst (sees result) (BreaksNode (design_of top.now) x n node.now) }
{
    let name = node.name.as_str();
    let twice = spelled_before(name, before.xbars) | repeats_one(top, before, node);
    let again = when(twice, Found::node_twice_in_top(node.at, name));
    let unknown = when(
        is_unknown(top, node),
        Found::unknown_node_in_top(node.at, name),
    );
    earlier_of(again, unknown)
}

/// How the crossbar of this number is listed, if it is.
fn listing(xbars: &[XbarUse], number: usize) -> Option<&XbarUse>
    ensures { option_copied result ≡ slice_get xbars.now number }
{
    xbars.get(number)
}

/// Whether a node is a device that stands for a crossbar of another space.
fn elsewhere(top: &MergedTop, xbar: usize, node: &NodeDesc) -> bool
    requires { node.now.xbar ≡ true }
    ensures { Decides result (IsElsewhere (design_of top.now) xbar node.now) }
{
    if node.host {
        return false;
    }
    match listing(top.top.xbars.as_slice(), xbar) {
        Some(listed) => is_elsewhere(
            top.top.xbars.as_slice(),
            node.name.as_str(),
            listed.space.as_str(),
        ),
        None => false,
    }
}

/// A node of a crossbar that stands for another.
fn first_in_nested<'r>(
    top: &MergedTop,
    xbar: usize,
    outer: &XbarDesc,
    node: &'r NodeDesc,
) -> Option<Found<'r>>
    requires nested { node.now.xbar ≡ true }
    requires there { CrossbarIs (design_of top.now) xbar outer.now }
    ensures { (n : ℕ) → TellsFirst (sees result) (BreaksNode (design_of top.now) xbar n node.now) }
{
    let name = node.name.as_str();
    let joined = joins_one(top.xbars.as_slice(), outer.name.as_str(), node);
    let alone = when(!joined, Found::unknown_node_in_top(node.at, name));
    let apart = when(elsewhere(top, xbar, node), Found::bad_space(node.at, name));
    earlier_of(alone, apart)
}

/// A node of a crossbar.
fn first_in_node<'r>(
    top: &MergedTop,
    xbar: usize,
    outer: &XbarDesc,
    number: usize,
    node: &'r NodeDesc,
) -> Option<Found<'r>>
    requires read { AreRead top.now }
    requires there { CrossbarIs (design_of top.now) xbar outer.now }
    requires crossbars { xbar ≤ length top.now.xbars }
    requires nodes { number ≤ length outer.now.nodes }
    ensures { TellsFirst (sees result) (BreaksNode (design_of top.now) xbar number node.now) }
{
    if node.xbar {
        return first_in_nested(top, xbar, outer, node);
    }
    let before = Before {
        xbars: &top.xbars.as_slice()[..xbar],
        nodes: &outer.nodes.as_slice()[..number],
    };
    first_in_plain(top, &before, node)
}

/// What the file of a crossbar breaks.
pub(crate) fn first_in_crossbar<'r>(
    top: &MergedTop,
    xbar: usize,
    outer: &'r XbarDesc,
) -> Option<Found<'r>>
    requires read { AreRead top.now }
    requires there { CrossbarIs (design_of top.now) xbar outer.now }
    requires crossbars { xbar ≤ length top.now.xbars }
    ensures { TellsFirst (sees result) (BreaksCrossbar (design_of top.now) xbar outer.now) }
{
    let mut first = None;
    for (number, node) in outer.nodes.as_slice().iter().enumerate() {
        first = earlier_of(first, first_in_node(top, xbar, outer, number, node));
    }
    first
}
