//! The description of a crossbar that breaks no rule.

ghost use Rattle.std.specs.Prelude.{◌≡◌, ◌<◌, ◌^◌, [], codes, false, IfOk, IfSome, length, map, position, unwrap_or};
ghost use Rattle.std.specs.Str.{bytes_eq};
ghost use Rattle.cg_desc.specs.Crossbar.{IsValidCrossbar};
ghost use Rattle.cg_keys.specs.Lookups.{boolean_at, number_at, text_at};
ghost use Rattle.cg_xbread.specs.Described.{clock_of, crossbar_of, node_of, number_of, range_of, to_of};
ghost use Rattle.cg_xbread.specs.Written.{connections_of, nodes_of, text_of, written_node};

use crate::tables::clock_key;
use crate::written::{WrittenNode, text_of, written_node};
use cg_base::{List, Memory, Text};
use cg_desc::{NodeDesc, Range, XbarDesc};
use cg_hjson::{Member, Tree};
use cg_keys::{boolean_at, elements, members, number_at, text_at};
use std::alloc::Global;

/// The largest number of 32 bits.
const WORD: u64 = 0xffff_ffff;

#[tactic(auto, unfolding(crate::specs::Described::clock_of))]
fn clock_of(members: &[Member]) -> &str
    ensures { result.now ≡ clock_of members.now }
{
    text_at(members, clock_key(members)).unwrap_or("")
}

fn base_of(range: &[Member]) -> u32
    ensures { result ≡ unwrap_or (number_at 0 4294967295 (codes "base_addr") range.now) 0 }
{
    match number_at(0, WORD, range, "base_addr") {
        Some(base) => base as u32,
        None => 0,
    }
}

#[tactic(auto, unfolding(crate::specs::Described::range_of))]
fn range_of(range: &Tree) -> Range
    ensures { result ≡ range_of range.now }
{
    let range = members(range);
    Range {
        base: base_of(range),
        size: number_at(0, WORD + 1, range, "size_byte").unwrap_or(0),
    }
}

fn ranges_of(alloc: Global, items: &[Tree]) -> Result<List<Range>, Memory>
    ensures { IfOk result (λ ranges. ranges ≡ map range_of items.now) }
{
    let mut ranges = List::new(alloc);
    for item in items {
        ranges.push(range_of(item))?;
    }
    Ok(ranges)
}

fn place_of(nodes: &[WrittenNode], name: &str) -> Option<usize>
    ensures place { result ≡ position (λ node. bytes_eq node.name name.now) nodes.now }
    ensures within { IfSome result (λ place. place < length nodes.now) }
{
    nodes.iter().position(|node| node.name.as_str() == name)
}

/// The number of the first node with this name.
#[tactic(auto, unfolding(crate::specs::Described::number_of))]
fn number_of(nodes: &[WrittenNode], name: &str) -> u32
    requires { length nodes.now < 2 ^ 32 }
    ensures { result ≡ number_of nodes.now name.now }
{
    match place_of(nodes, name) {
        Some(number) => number as u32,
        None => 0,
    }
}

fn numbers_of(alloc: Global, nodes: &[WrittenNode], elements: &[Tree]) -> Result<List<u32>, Memory>
    requires { length nodes.now < 2 ^ 32 }
    ensures { IfOk result (λ numbers. numbers ≡ map (λ e. number_of nodes.now (text_of e)) elements.now) }
{
    let mut numbers = List::new(alloc);
    for element in elements {
        numbers.push(number_of(nodes, text_of(element)))?;
    }
    Ok(numbers)
}

/// The numbers of the devices that a node connects to.
#[tactic(auto, unfolding(crate::specs::Described::to_of))]
fn to_of(
    alloc: Global,
    nodes: &[WrittenNode],
    connections: &[Member],
    node: &WrittenNode,
) -> Result<List<u32>, Memory>
    requires { length nodes.now < 2 ^ 32 }
    ensures { IfOk result (λ to. to ≡ to_of nodes.now connections.now node.now) }
{
    if node.host {
        Ok(numbers_of(alloc, nodes, elements(connections, node.name.as_str()))?)
    } else {
        Ok(List::new(alloc))
    }
}

/// A node, by what its members say and what is written of it.
#[tactic(auto, unfolding(crate::specs::Described::node_of))]
fn node_of(
    alloc: Global,
    clock: &str,
    nodes: &[WrittenNode],
    connections: &[Member],
    tree: &Tree,
) -> Result<NodeDesc, Memory>
    requires { length nodes.now < 2 ^ 32 }
    ensures { IfOk result (λ node. node ≡ node_of clock.now nodes.now connections.now tree.now) }
{
    let node = members(tree);
    let written = written_node(alloc, tree)?;
    let to = to_of(alloc, nodes, connections, &written)?;
    let WrittenNode { name, host, at } = written;
    Ok(NodeDesc {
        name,
        host,
        xbar: boolean_at(node, "xbar").unwrap_or(false),
        clock: Text::of(alloc, text_at(node, "clock").unwrap_or(clock))?,
        ranges: ranges_of(alloc, elements(node, "addr_range"))?,
        to,
        at,
    })
}

fn describe_nodes(
    alloc: Global,
    clock: &str,
    nodes: &[WrittenNode],
    connections: &[Member],
    items: &[Tree],
) -> Result<List<NodeDesc>, Memory>
    requires { length nodes.now < 2 ^ 32 }
    ensures { IfOk result (λ described. described ≡ map (node_of clock.now nodes.now connections.now) items.now) }
{
    let mut described = List::new(alloc);
    for item in items {
        described.push(node_of(alloc, clock, nodes, connections, item)?)?;
    }
    Ok(described)
}

/// The description of the crossbar whose file has this number.
#[tactic(auto, unfolding(crate::specs::Described::crossbar_of))]
pub(crate) fn describe_crossbar(
    alloc: Global,
    tree: &Tree,
    nodes: &[WrittenNode],
    connections: &[Member],
    file: u32,
) -> Result<XbarDesc, Memory>
    requires few { length nodes.now < 2 ^ 32 }
    requires nodes { nodes.now ≡ nodes_of tree.now }
    requires connections { connections.now ≡ connections_of tree.now }
    ensures { IfOk result (λ xbar. xbar ≡ crossbar_of file tree.now) }
{
    let crossbar = members(tree);
    let clock = clock_of(crossbar);
    Ok(XbarDesc {
        file,
        name: Text::of(alloc, text_at(crossbar, "name").unwrap_or(""))?,
        clock: Text::of(alloc, clock)?,
        nodes: describe_nodes(
            alloc,
            clock,
            nodes,
            connections,
            elements(crossbar, "nodes"),
        )?,
        at: tree.at,
    })
}
