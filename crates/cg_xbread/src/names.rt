//! Names of nodes.

ghost use Rattle.std.specs.Prelude.{◌≡◌};
ghost use Rattle.cg_finding.specs.Finding.{first_of};
ghost use Rattle.cg_finding.specs.Found.{sees};
ghost use Rattle.cg_xbread.specs.Listed.{is_node_name, node_name_faults};

use cg_finding::Found;
use cg_hjson::Tree;
use cg_keys::{is_name, text};

/// The most characters of a name.
const MOST: usize = 40;

/// Whether a string is a name, or two names joined by a dot.
#[tactic(auto, unfolding(crate::specs::Listed::is_node_name))]
pub(crate) fn is_node_name(name: &str) -> bool
    ensures { result ≡ is_node_name name.now }
{
    match name.split_once('.') {
        Some((instance, interface)) => is_name(MOST, instance) && is_name(MOST, interface),
        None => is_name(MOST, name),
    }
}

/// Rule 25 at a string that is no node's name.
#[tactic(auto, unfolding(crate::specs::Listed::node_name_faults), using(cg_finding::proofs::Firsts::firsts))]
pub(crate) fn first_in_node_name(tree: &Tree) -> Option<Found<'static>>
    ensures { sees result ≡ first_of (node_name_faults tree.now) }
{
    if is_node_name(text(tree)?) {
        None
    } else {
        Some(Found {
            phase: 2,
            rule: 25,
            at: tree.at,
            name: "name",
        })
    }
}
