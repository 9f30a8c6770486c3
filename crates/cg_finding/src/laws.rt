ghost use Rattle.std.specs.Prelude.{◌≡◌, [], List, None, Some};
ghost use Rattle.cg_finding.specs.Finding.{Finding, IsFirst, first_of};

/// The first of some findings is one of them, and as faults of one file none of them is before it;
/// only where there are none is there no first.
#[tactic(auto, using(crate::proofs::Firsts::none_is_empty))]
pub fn the_first_is_first()
    ensures first { (fs : List Finding) (f : Finding) → first_of fs ≡ Some f → IsFirst f fs }
    ensures none { (fs : List Finding) → first_of fs ≡ None → fs ≡ [] }
{}
