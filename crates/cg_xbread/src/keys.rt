//! The first rule on keys, kinds and names that a crossbar breaks.

ghost use Rattle.std.specs.Prelude.{◌≡◌, [], IfOk, codes};
ghost use Rattle.std.specs.List.{flat_map};
ghost use Rattle.std.specs.Option.{option_map_or};
ghost use Rattle.cg_finding.specs.Finding.{first_of};
ghost use Rattle.cg_finding.specs.Found.{sees};
ghost use Rattle.cg_keys.specs.Elements.{each_faults, elements, object_faults};
ghost use Rattle.cg_keys.specs.Table.{table_faults, value_at};
ghost use Rattle.cg_xbread.specs.Listed.{key_faults, node_faults, node_members_faults, node_name_faults};
ghost use Rattle.cg_xbread.specs.Tables.{crossbar_keys, node_keys, range_keys};

use crate::connections::first_in_connections;
use crate::names::first_in_node_name;
use crate::tables::{crossbar_rows, node_rows, range_rows};
use crate::written::connections_of;
use cg_base::Memory;
use cg_finding::{Found, Rule, earlier_of, first_in_all};
use cg_hjson::{Member, Tree};
use cg_keys::{
    elements, first_duplicate, first_in_each, first_in_elements, first_in_length, first_in_object,
    first_in_table, members, value_at,
};
use std::alloc::Global;

#[tactic(auto, using(cg_finding::proofs::Firsts::firsts))]
fn first_in_name(node: &[Member]) -> Option<Found<'static>>
    ensures { sees result ≡ first_of (option_map_or node_name_faults (value_at (codes "name") node.now) []) }
{
    first_in_node_name(value_at(node, "name")?)
}

/// What is asked of the objects of a list of ranges.
fn first_in_ranges(ranges: &[Tree]) -> Option<Found<'static>>
    ensures { sees result ≡ first_of (each_faults range_keys ranges.now) }
{
    first_in_each(ranges, range_rows())
}

/// What is asked of the members of a node beside their table.
#[tactic(auto, unfolding(crate::specs::Listed::node_members_faults), using(cg_finding::proofs::Firsts::firsts))]
fn first_in_node_members(node: &[Member]) -> Option<Found<'static>>
    ensures { sees result ≡ first_of (node_members_faults node.now) }
{
    let name = first_in_name(node);
    let length = first_in_length(0, 16, node, "addr_range");
    let kinds = first_in_elements(node, "addr_range");
    let ranges = first_in_ranges(elements(node, "addr_range"));
    earlier_of(name, earlier_of(length, earlier_of(kinds, ranges)))
}

/// What is asked of the keys of a node.
fn first_in_node_keys(node: &Tree) -> Option<Found<'static>>
    ensures { sees result ≡ first_of (object_faults node_keys node.now) }
{
    first_in_object(node, node_rows())
}

/// What is asked of a node.
#[derive(Drop)]
struct Node;

impl<'r> Rule<'r, Tree> for Node {
    ghost use Rattle.cg_xbread.specs.Listed.{node_faults};

    ghost faults = { λ _ tree. node_faults tree };

    #[tactic(auto, unfolding(crate::specs::Listed::node_faults), using(cg_finding::proofs::Firsts::firsts))]
    fn first(&self, item: &'r Tree) -> Option<Found<'r>> {
        earlier_of(
            first_in_node_keys(item),
            first_in_node_members(members(item)),
        )
    }
}

fn first_in_nodes(nodes: &[Tree]) -> Option<Found<'_>>
    ensures { sees result ≡ first_of (flat_map node_faults nodes.now) }
{
    first_in_all(&Node, nodes)
}

/// What is asked of the keys of a crossbar.
fn first_in_crossbar(tree: &Tree, crossbar: &[Member]) -> Option<Found<'static>>
    ensures { sees result ≡ first_of (table_faults tree.now.at crossbar.now (crossbar_keys crossbar.now)) }
{
    first_in_table(tree.at, crossbar, crossbar_rows(crossbar))
}

/// The first rule on keys, kinds and names that a crossbar breaks.
///
/// Keys are kept in sets, so it takes memory.
#[tactic(auto, unfolding(crate::specs::Listed::key_faults), using(cg_finding::proofs::Firsts::firsts))]
pub(crate) fn first_in_keys(alloc: Global, tree: &Tree) -> Result<Option<Found<'_>>, Memory>
    ensures { IfOk result (λ found. sees found ≡ first_of (key_faults tree.now)) }
{
    let crossbar = members(tree);
    let duplicate = first_duplicate(alloc, tree)?;
    let keys = first_in_crossbar(tree, crossbar);
    let length = first_in_length(0, 64, crossbar, "nodes");
    let kinds = first_in_elements(crossbar, "nodes");
    let nodes = first_in_nodes(elements(crossbar, "nodes"));
    let connections = first_in_connections(alloc, connections_of(tree))?;
    let inner = earlier_of(kinds, earlier_of(nodes, connections));
    Ok(earlier_of(duplicate, earlier_of(keys, earlier_of(length, inner))))
}
