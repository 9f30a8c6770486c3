//! Members that stand for the sources of clocks and resets.

ghost use Rattle.std.specs.Prelude.{◌≡◌, IfOk, map};
ghost use Rattle.cg_finding.specs.Finding.{first_of};
ghost use Rattle.cg_finding.specs.Found.{sees};
ghost use Rattle.cg_keys.specs.Table.{key_of};
ghost use Rattle.cg_topread.specs.Listed.{sources_faults};

use crate::tables::source_forms;
use cg_base::Memory;
use cg_finding::{Found, Rule, earlier_of};
use cg_hjson::Member;
use cg_keys::{Row, first_in_members, first_in_object, first_in_value};
use std::alloc::Global;

/// What is asked of a member that stands for a source: a string, or an object by these rows.
#[derive(Drop)]
struct Source {
    rows: &'static [Row],
}

impl<'r> Rule<'r, Member> for Source {
    ghost use Rattle.std.specs.Prelude.{map};
    ghost use Rattle.cg_keys.specs.Table.{key_of};
    ghost use Rattle.cg_topread.specs.Listed.{source_faults};

    ghost faults = { λ rule member. source_faults (map key_of rule.rows.now) member };

    #[tactic(auto, unfolding(crate::specs::Listed::source_faults), using(cg_finding::proofs::Firsts::firsts))]
    fn first(&self, item: &'r Member) -> Option<Found<'r>> {
        let form = first_in_value(item.key.as_str(), source_forms(), &item.value);
        earlier_of(form, first_in_object(&item.value, self.rows))
    }
}

/// The first that is wrong in an object of sources.
#[tactic(auto, unfolding(crate::specs::Listed::sources_faults))]
pub(crate) fn first_in_sources<'a>(
    alloc: Global,
    rows: &'static [Row],
    sources: &'a [Member],
) -> Result<Option<Found<'a>>, Memory>
    ensures { IfOk result (λ found. sees found ≡ first_of (sources_faults (map key_of rows.now) sources.now)) }
{
    Ok(first_in_members(alloc, &Source { rows }, sources)?)
}
