//! The first rule on nodes and connections that a crossbar breaks.

ghost use Rattle.std.specs.Prelude.{◌≡◌, ◌&&◌, [], ◌∷◌, cond, IfOk, not};
ghost use Rattle.std.specs.HashSet.{contains_by};
ghost use Rattle.std.specs.List.{flat_map};
ghost use Rattle.std.specs.Str.{bytes_eq};
ghost use Rattle.cg_finding.specs.Finding.{each_after, finding, first_of};
ghost use Rattle.cg_finding.specs.Found.{sees};
ghost use Rattle.cg_xbread.specs.Listed.{heard, lonely_device, lonely_host, node_rules, node_twice};

use crate::ends::{first_in_all_ends, heard};
use crate::written::WrittenNode;
use cg_base::Memory;
use cg_finding::{Found, Rule, earlier_of, first_in_all};
use cg_hjson::Member;
use cg_keys::elements;
use std::alloc::Global;
use std::collections::HashSet;

/// Rule 50 at a node, unless its name is new.
#[tactic(auto, using(cg_finding::proofs::Firsts::firsts))]
fn repeat_of(is_new: bool, node: &WrittenNode) -> Option<Found<'_>>
    ensures { sees result ≡ first_of (cond is_new [] (finding 6 50 node.now.at node.now.name ∷ [])) }
{
    if is_new {
        None
    } else {
        Some(Found {
            phase: 6,
            rule: 50,
            at: node.at,
            name: node.name.as_str(),
        })
    }
}

/// The first node with the name of an earlier node.
#[tactic(auto, using(cg_finding::proofs::Firsts::firsts))]
fn first_node_twice(alloc: Global, nodes: &[WrittenNode]) -> Result<Option<Found<'_>>, Memory>
    ensures { IfOk result (λ found. sees found ≡ first_of (each_after node_twice [] nodes.now)) }
{
    let mut seen = HashSet::new(alloc);
    let mut first = None;
    for node in nodes {
        let is_new = seen.insert(node.name.as_str())?;
        first = earlier_of(first, repeat_of(is_new, node));
    }
    Ok(first)
}

/// That a host's connection lists some device.
#[derive(Drop)]
struct SomeDevice<'c> {
    connections: &'c [Member],
}

impl<'r, 'c> Rule<'r, WrittenNode> for SomeDevice<'c> {
    ghost use Rattle.cg_xbread.specs.Listed.{lonely_host};

    ghost faults = { λ rule node. lonely_host rule.connections.now node };

    #[tactic(auto, unfolding(crate::specs::Listed::lonely_host), using(cg_finding::proofs::Firsts::firsts))]
    fn first(&self, item: &'r WrittenNode) -> Option<Found<'r>> {
        if item.host && elements(self.connections, item.name.as_str()).is_empty() {
            Some(Found {
                phase: 6,
                rule: 52,
                at: item.at,
                name: item.name.as_str(),
            })
        } else {
            None
        }
    }
}

fn first_lonely_host<'a>(nodes: &'a [WrittenNode], connections: &[Member]) -> Option<Found<'a>>
    ensures { sees result ≡ first_of (flat_map (lonely_host connections.now) nodes.now) }
{
    first_in_all(&SomeDevice { connections }, nodes)
}

/// Rule 53 at a device whose name is not among these.
#[tactic(auto, using(cg_finding::proofs::Firsts::firsts))]
fn lonely_device<'a>(heard: &HashSet<&str>, node: &'a WrittenNode) -> Option<Found<'a>>
    ensures { sees result ≡ first_of (cond (not node.now.host && not (contains_by (λ k. bytes_eq node.now.name k.now) heard.now)) (finding 6 53 node.now.at node.now.name ∷ []) []) }
{
    if node.host || heard.contains(node.name.as_str()) {
        None
    } else {
        Some(Found {
            phase: 6,
            rule: 53,
            at: node.at,
            name: node.name.as_str(),
        })
    }
}

#[tactic(auto, using(cg_finding::proofs::Firsts::firsts))]
fn first_lonely_device<'a>(
    alloc: Global,
    nodes: &'a [WrittenNode],
    connections: &[Member],
) -> Result<Option<Found<'a>>, Memory>
    ensures { IfOk result (λ found. sees found ≡ first_of (flat_map (lonely_device (heard nodes.now connections.now)) nodes.now)) }
{
    let heard = heard(alloc, nodes, connections)?;
    let mut first = None;
    for node in nodes {
        first = earlier_of(first, lonely_device(&heard, node));
    }
    Ok(first)
}

/// The first rule on nodes and connections that a crossbar breaks.
///
/// Names are kept in sets, so it takes memory.
#[tactic(auto, unfolding(crate::specs::Listed::node_rules), using(cg_finding::proofs::Firsts::firsts))]
pub(crate) fn first_in_node_rules<'a>(
    alloc: Global,
    nodes: &'a [WrittenNode],
    connections: &'a [Member],
) -> Result<Option<Found<'a>>, Memory>
    ensures { IfOk result (λ found. sees found ≡ first_of (node_rules nodes.now connections.now)) }
{
    let twice = first_node_twice(alloc, nodes)?;
    let ends = first_in_all_ends(alloc, nodes, connections)?;
    let hosts = first_lonely_host(nodes, connections);
    let devices = first_lonely_device(alloc, nodes, connections)?;
    Ok(earlier_of(twice, earlier_of(ends, earlier_of(hosts, devices))))
}
