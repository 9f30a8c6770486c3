//! Lists of objects that have names, and the members of objects at keys.

ghost use Rattle.std.specs.Prelude.{◌≡◌};
ghost use Rattle.cg_finding.specs.Finding.{first_of};
ghost use Rattle.cg_finding.specs.Found.{sees};
ghost use Rattle.cg_topread.specs.Listed.{members_at, names_faults};

use crate::tables::named_rows;
use cg_finding::{Found, earlier_of};
use cg_hjson::Member;
use cg_keys::{elements, first_in_each, first_in_elements, object_at};

/// The members of the object at a key; none where there is no object.
#[tactic(auto, unfolding(crate::specs::Listed::members_at))]
pub(crate) fn members_at<'a>(members: &'a [Member], key: &str) -> &'a [Member]
    ensures { result.now ≡ members_at key.now members.now }
{
    object_at(members, key).unwrap_or(&[])
}

/// The first that is wrong in the list of objects with names at a key.
#[tactic(auto, unfolding(crate::specs::Listed::names_faults), using(cg_finding::proofs::Firsts::firsts))]
pub(crate) fn first_in_names<'a>(members: &[Member], key: &'a str) -> Option<Found<'a>>
    ensures { sees result ≡ first_of (names_faults key.now members.now) }
{
    earlier_of(
        first_in_elements(members, key),
        first_in_each(elements(members, key), named_rows()),
    )
}
