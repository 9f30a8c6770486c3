//! Names that come twice, where the later place in the file is told.

ghost use Rattle.std.specs.Prelude.{◌≡◌, map};
ghost use Rattle.std.specs.List.{list_any};
ghost use Rattle.cg_finding.specs.Finding.{first_of};
ghost use Rattle.cg_finding.specs.Found.{sees};
ghost use Rattle.cg_expand.specs.Parts.Labels.{alert_label, field_label, interrupt_label, is_earlier, labels_twice, named, twice_among};

use cg_desc::{AlertDesc, At, FieldDesc, IntrDesc};
use cg_finding::{Found, Rule, first_in_all};

/// A name, and where it stands in the file.
#[derive(Clone, Copy)]
pub struct Label<'a> {
    pub name: &'a str,
    pub at: At,
}

/// What has a name that stands somewhere in the file.
pub trait Labelled {
    ghost use Rattle.cg_expand.specs.Violations.{Named};

    /// The name and its place.
    ghost of: { Self → Named };

    /// The name and its place.
    fn label(&self) -> Label<'_>
        ensures { named result ≡ of self.now };
}

impl Labelled for FieldDesc {
    ghost of = { field_label };

    fn label(&self) -> Label<'_> {
        Label {
            name: self.name.as_str(),
            at: self.at,
        }
    }
}

impl Labelled for IntrDesc {
    ghost of = { interrupt_label };

    fn label(&self) -> Label<'_> {
        Label {
            name: self.name.as_str(),
            at: self.at,
        }
    }
}

impl Labelled for AlertDesc {
    ghost of = { alert_label };

    fn label(&self) -> Label<'_> {
        Label {
            name: self.name.as_str(),
            at: self.at,
        }
    }
}

/// Whether the other stands earlier in the file and has the same name, without regard to case.
fn is_earlier(label: Label, other: Label) -> bool
    ensures { result ≡ is_earlier (named label.entry) (named other.entry) }
{
    other.at.byte < label.at.byte && other.name.eq_ignore_ascii_case(label.name)
}

/// Whether the label has the name of one that stands earlier in the file.
fn is_repeat<L: Labelled>(all: &[L], label: Label) -> bool
    ensures { result ≡ list_any (is_earlier (named label.entry)) (map L.of all.now) }
{
    for other in all {
        if is_earlier(label, other.label()) {
            return true;
        }
    }
    false
}

/// The rule that a name does not come twice among these.
#[derive(Drop)]
struct Twice<'a, L> {
    all: &'a [L],
}

impl<'r, L: Labelled> Rule<'r, L> for Twice<'r, L> {
    ghost faults = { λ rule item. twice_among (map L.of rule.all.now) (L.of item) };

    #[tactic(auto, unfolding(crate::specs::Parts::Labels::twice_among), using(cg_finding::proofs::Firsts::firsts))]
    fn first(&self, item: &'r L) -> Option<Found<'r>> {
        let label = item.label();
        if is_repeat(self.all, label) {
            Some(Found::name_twice(label.at, label.name))
        } else {
            None
        }
    }
}

/// The first name that is also the name of one that stands earlier in the file.
pub fn first_repeat<L: Labelled>(all: &[L]) -> Option<Found<'_>>
    ensures { sees result ≡ first_of (labels_twice (map L.of all.now)) }
{
    first_in_all(&Twice { all }, all)
}
