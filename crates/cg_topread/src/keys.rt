//! The first rule that a top breaks.

ghost use Rattle.std.specs.Prelude.{◌≡◌, IfOk};
ghost use Rattle.cg_finding.specs.Finding.{first_of};
ghost use Rattle.cg_finding.specs.Found.{sees};
ghost use Rattle.cg_topread.specs.Listed.{spaces_faults, top_faults};

use crate::instances::{first_in_crossbars, first_in_instances};
use crate::lists::first_in_names;
use crate::sections::first_in_sections;
use crate::tables::top_rows;
use cg_base::Memory;
use cg_finding::{Found, earlier_of};
use cg_hjson::{Member, Tree};
use cg_keys::{first_duplicate, first_in_length, first_in_table, members};
use std::alloc::Global;

/// What is asked of the list of address spaces.
#[tactic(auto, unfolding(crate::specs::Listed::spaces_faults), using(cg_finding::proofs::Firsts::firsts))]
fn first_in_spaces(top: &[Member]) -> Option<Found<'static>>
    ensures { sees result ≡ first_of (spaces_faults top.now) }
{
    let length = first_in_length(1, 8, top, "addr_spaces");
    earlier_of(length, first_in_names(top, "addr_spaces"))
}

/// The first rule that a top breaks.
///
/// Keys and types are kept in sets, so it takes memory.
#[tactic(auto, unfolding(crate::specs::Listed::top_faults), using(cg_finding::proofs::Firsts::firsts))]
pub(crate) fn first_in_top(alloc: Global, tree: &Tree) -> Result<Option<Found<'_>>, Memory>
    ensures { IfOk result (λ found. sees found ≡ first_of (top_faults tree.now)) }
{
    let top = members(tree);
    let duplicate = first_duplicate(alloc, tree)?;
    let keys = first_in_table(tree.at, top, top_rows());
    let sections = first_in_sections(top);
    let spaces = first_in_spaces(top);
    let instances = first_in_instances(alloc, top)?;
    let crossbars = first_in_crossbars(alloc, top)?;
    let inner = earlier_of(
        sections,
        earlier_of(spaces, earlier_of(instances, crossbars)),
    );
    Ok(earlier_of(duplicate, earlier_of(keys, inner)))
}
