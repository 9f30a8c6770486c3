ghost use Rattle.std.specs.Prelude.{◌≡◌, List, Some};
ghost use Rattle.std.specs.Ordering.{is_gt};
ghost use Rattle.cg_finding.specs.Finding.{Finding, earlier, finding_cmp, first_of};
ghost use Rattle.cg_finding.specs.Found.{seen, sees};
ghost use Rattle.cg_finding.specs.Refusal.{Names, Refuses};

use cg_base::Text;
use cg_desc::{At, DescFault, Fault};
use std::alloc::Global;

/// A broken rule, with a name that is borrowed from the file or from a table of keys.
///
/// It is copied freely and takes no memory, so checks find many and tell the first. `phase`, `rule`,
/// `at` and `name` are those of `cg_desc::Fault`.
#[derive(Clone, Copy, Debug)]
pub struct Found<'a> {
    pub phase: u8,
    pub rule: u8,
    pub at: At,
    pub name: &'a str,
}

/// Whether a found fault comes later than another, by phase, byte place, rule and name.
#[tactic(auto, unfolding(crate::specs::Finding::finding_cmp))]
fn is_after(found: &Found, other: &Found) -> bool
    ensures { result ≡ is_gt (finding_cmp (seen found.now) (seen other.now)) }
{
    found
        .phase
        .cmp(&other.phase)
        .then(found.at.byte.cmp(&other.at.byte))
        .then(found.rule.cmp(&other.rule))
        .then(found.name.cmp(other.name))
        .is_gt()
}

/// The earlier of two found faults, as far as there are two; of two alike the first.
#[tactic(auto, unfolding(crate::specs::Finding::earlier))]
pub fn earlier_of<'a>(first: Option<Found<'a>>, second: Option<Found<'a>>) -> Option<Found<'a>>
    ensures { sees result ≡ earlier (sees first.entry) (sees second.entry) }
{
    match (first, second) {
        (None, second) => second,
        (first, None) => first,
        (Some(first), Some(second)) => {
            if is_after(&first, &second) {
                Some(second)
            } else {
                Some(first)
            }
        }
    }
}

/// The refusal of the file of this number by a found fault, which copies its name.
pub fn refusal(alloc: Global, found: Found, file: u32) -> DescFault
    ensures names { Names result file (seen found.entry) }
    ensures refuses { (fs : List Finding) → first_of fs ≡ Some (seen found.entry) → Refuses result file fs }
{
    match Text::of(alloc, found.name) {
        Ok(name) => DescFault::Fault(Fault {
            phase: found.phase,
            rule: found.rule,
            file,
            at: found.at,
            name,
        }),
        Err(_) => DescFault::Memory,
    }
}
