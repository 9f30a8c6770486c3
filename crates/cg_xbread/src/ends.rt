//! What connections join: hosts by their keys, and devices by their elements.

ghost use Rattle.std.specs.Prelude.{◌≡◌, ◌||◌, [], ◌∷◌, false, true, cond, IfOk, List, map, ℕ};
ghost use Rattle.std.specs.List.{flat_map, list_any};
ghost use Rattle.std.specs.HashSet.{contains_by};
ghost use Rattle.std.specs.Str.{bytes_eq};
ghost use Rattle.cg_finding.specs.Finding.{each_after, finding, first_of};
ghost use Rattle.cg_finding.specs.Found.{sees};
ghost use Rattle.cg_keys.specs.Values.{items_of};
ghost use Rattle.cg_xbread.specs.Listed.{element_faults_after, ends_faults, heard, host_elements, is_named, unknown_host};
ghost use Rattle.cg_xbread.specs.Written.{text_of};

use crate::written::{WrittenNode, text_of};
use cg_base::Memory;
use cg_finding::{Found, earlier_of};
use cg_hjson::{Member, Tree};
use cg_keys::{first_members, items};
use std::alloc::Global;
use std::collections::HashSet;

/// Whether one of the nodes is a host, or is none, and has this name.
#[tactic(auto, unfolding(crate::specs::Listed::is_named))]
pub(crate) fn is_named(host: bool, nodes: &[WrittenNode], name: &str) -> bool
    ensures { result ≡ is_named host nodes.now name.now }
{
    nodes
        .iter()
        .any(|node| node.host == host && node.name.as_str() == name)
}

/// Rule 51 where an element is no device, and 50 where it is one that came before.
#[tactic(auto, using(cg_finding::proofs::Firsts::firsts))]
fn first_in_element(is_device: bool, is_new: bool, element: &Tree) -> Option<Found<'_>>
    ensures { sees result ≡ first_of (cond is_device
        (cond is_new [] (finding 6 50 element.now.at (text_of element.now) ∷ []))
        (finding 6 51 element.now.at (text_of element.now) ∷ [])) }
{
    if is_device && is_new {
        return None;
    }
    Some(Found {
        phase: 6,
        rule: if is_device { 50 } else { 51 },
        at: element.at,
        name: text_of(element),
    })
}

/// The first element that is no device, or a device that the list has before. Each is looked up once, in a set.
#[tactic(auto, using(cg_finding::proofs::Firsts::firsts))]
fn first_in_elements<'a>(
    alloc: Global,
    nodes: &[WrittenNode],
    elements: &'a [Tree],
) -> Result<Option<Found<'a>>, Memory>
    ensures { IfOk result (λ found. sees found ≡ first_of (each_after (element_faults_after nodes.now) [] elements.now)) }
{
    let mut seen = HashSet::new(alloc);
    let mut first = None;
    for element in elements {
        let name = text_of(element);
        let is_new = seen.insert(name)?;
        let is_device = is_named(false, nodes, name);
        first = earlier_of(first, first_in_element(is_device, is_new, element));
    }
    Ok(first)
}

/// Rule 51 at a key that is no host.
#[tactic(auto, unfolding(crate::specs::Listed::unknown_host), using(cg_finding::proofs::Firsts::firsts))]
fn unknown_host<'a>(nodes: &[WrittenNode], connection: &'a Member) -> Option<Found<'a>>
    ensures { sees result ≡ first_of (unknown_host nodes.now connection.now) }
{
    if is_named(true, nodes, connection.key.as_str()) {
        return None;
    }
    Some(Found {
        phase: 6,
        rule: 51,
        at: connection.key_at,
        name: connection.key.as_str(),
    })
}

#[tactic(auto, unfolding(crate::specs::Listed::ends_faults), using(cg_finding::proofs::Firsts::firsts))]
fn first_in_ends<'a>(
    alloc: Global,
    nodes: &[WrittenNode],
    connection: &'a Member,
) -> Result<Option<Found<'a>>, Memory>
    ensures { IfOk result (λ found. sees found ≡ first_of (ends_faults nodes.now connection.now)) }
{
    let key = unknown_host(nodes, connection);
    let elements = first_in_elements(alloc, nodes, items(&connection.value))?;
    Ok(earlier_of(key, elements))
}

/// The first connection whose key is no host, or element that is no device or stands before in its list.
#[tactic(auto, using(cg_finding::proofs::Firsts::firsts))]
pub(crate) fn first_in_all_ends<'a>(
    alloc: Global,
    nodes: &[WrittenNode],
    connections: &'a [Member],
) -> Result<Option<Found<'a>>, Memory>
    ensures { IfOk result (λ found. sees found ≡ first_of (flat_map (ends_faults nodes.now) connections.now)) }
{
    let mut first = None;
    for connection in connections {
        first = earlier_of(first, first_in_ends(alloc, nodes, connection)?);
    }
    Ok(first)
}

/// The names of the elements of a list, and those that are there.
fn hear<'a>(mut names: HashSet<&'a str>, elements: &'a [Tree]) -> Result<HashSet<&'a str>, Memory>
    ensures { IfOk result (λ more. (name : List ℕ)
        → contains_by (λ k. bytes_eq name k.now) more
        ≡ (contains_by (λ k. bytes_eq name k.now) names.entry || list_any (λ e. bytes_eq (text_of e) name) elements.entry.now)) }
{
    for element in elements {
        names.insert(text_of(element))?;
    }
    Ok(names)
}

/// The names that those of these connections list whose keys are hosts.
fn heard_in<'a>(
    alloc: Global,
    nodes: &[WrittenNode],
    connections: &[&'a Member],
) -> Result<HashSet<&'a str>, Memory>
    ensures { IfOk result (λ names. (name : List ℕ)
        → contains_by (λ k. bytes_eq name k.now) names
        ≡ list_any (λ e. bytes_eq (text_of e) name) (flat_map (host_elements nodes.now) (map (λ m. m.now) connections.now))) }
{
    let mut names = HashSet::new(alloc);
    for connection in connections {
        if !is_named(true, nodes, connection.key.as_str()) {
            continue;
        }
        names = hear(names, items(&connection.value))?;
    }
    Ok(names)
}

/// The names that the connections of hosts list. Where of two connections with one key the first counts.
#[tactic(auto, unfolding(crate::specs::Listed::heard))]
pub(crate) fn heard<'a>(
    alloc: Global,
    nodes: &[WrittenNode],
    connections: &'a [Member],
) -> Result<HashSet<&'a str>, Memory>
    ensures { IfOk result (λ names. (name : List ℕ)
        → contains_by (λ k. bytes_eq name k.now) names ≡ list_any (λ e. bytes_eq (text_of e) name) (heard nodes.now connections.now)) }
{
    let firsts = first_members(alloc, connections)?;
    Ok(heard_in(alloc, nodes, firsts.as_slice())?)
}
