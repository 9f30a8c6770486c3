ghost use Rattle.std.specs.Prelude.{◌≡◌};
ghost use Rattle.std.specs.List.{flat_map};
ghost use Rattle.cg_finding.specs.Finding.{first_of};
ghost use Rattle.cg_finding.specs.Found.{sees};

use crate::{Found, earlier_of};

/// A rule on one item.
pub trait Rule<'r, X> {
    ghost use Rattle.std.specs.Prelude.{List};
    ghost use Rattle.cg_finding.specs.Finding.{Finding};

    /// What an item breaks.
    ghost faults: { Self → X → List Finding };

    /// The first that the item breaks, if it breaks anything.
    fn first(&self, item: &'r X) -> Option<Found<'r>>
        ensures { sees result ≡ first_of (faults self.now item.now) };
}

/// The first that any of the items breaks by a rule.
#[tactic(auto, using(crate::proofs::Firsts::firsts))]
pub fn first_in_all<'r, X, R: Rule<'r, X>>(rule: &R, items: &'r [X]) -> Option<Found<'r>>
    ensures { sees result ≡ first_of (flat_map (R.faults rule.now) items.now) }
{
    let mut first = None;
    for item in items {
        first = earlier_of(first, rule.first(item));
    }
    first
}
