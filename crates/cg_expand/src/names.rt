//! Names of registers and windows that come twice in an interface.

ghost use Rattle.std.specs.Prelude.{◌≡◌, ◌||◌, List, ℕ, false, not, IfOk, OnOk, option_map};
ghost use Rattle.std.specs.Str.{str_eq_ignore_ascii_case};
ghost use Rattle.cg_finding.specs.Finding.{first_of};
ghost use Rattle.cg_finding.specs.Found.{sees};
ghost use Rattle.cg_expand.specs.Violations.{name_of};
ghost use Rattle.cg_expand.specs.Parts.Labels.{named};
ghost use Rattle.cg_expand.specs.Parts.Names.{also, has, item_twice, known_twice, names_twice};

use crate::labels::Label;
use cg_base::Memory;
use cg_desc::Item;
use cg_finding::{Found, earlier_of};
use std::alloc::Global;
use std::collections::HashSet;

/// Names that are compared without regard to case.
#[derive(Drop)]
pub struct Names {
    alloc: Global,
    lower: HashSet<String>,
}

impl Names {
    /// No names, which take no memory.
    #[tactic(auto, unfolding(crate::specs::Parts::Names::has))]
    pub fn new(alloc: Global) -> Names
        ensures { (name : List ℕ) → has result name ≡ false }
    {
        Names {
            alloc,
            lower: HashSet::new(alloc),
        }
    }

    /// Adds a name, and tells whether it is new.
    pub fn add(&mut self, name: &str) -> Result<bool, Memory>
        ensures new { IfOk result (λ is_new. is_new ≡ not (has self.old name.now)) }
        ensures known { OnOk result ((other : List ℕ)
            → has self.new other ≡ (str_eq_ignore_ascii_case name.now other || has self.old other)) }
    {
        let lower = name.to_ascii_lowercase(self.alloc)?;
        let is_new = self.lower.insert(lower)?;
        Ok(is_new)
    }

    /// Adds a name, and tells it where it was known.
    #[tactic(auto, unfolding(crate::specs::Parts::Names::known_twice), using(cg_finding::proofs::Firsts::firsts))]
    fn first_at<'a>(&mut self, label: Label<'a>) -> Result<Option<Found<'a>>, Memory>
        ensures found { IfOk result (λ found. sees found ≡ first_of (known_twice (has self.old) (named label.entry))) }
        ensures known { OnOk result ((other : List ℕ)
            → has self.new other ≡ (str_eq_ignore_ascii_case label.entry.name.now other || has self.old other)) }
    {
        let is_new = self.add(label.name)?;
        if is_new {
            return Ok(None);
        }
        Ok(Some(Found::name_twice(label.at, label.name)))
    }

    /// Adds an item's name, if it has one, and tells it where it was known.
    #[tactic(auto, using(cg_finding::proofs::Firsts::firsts))]
    fn first_in_item<'a>(&mut self, item: &'a Item) -> Result<Option<Found<'a>>, Memory>
        ensures found { IfOk result (λ found. sees found ≡ first_of (item_twice (has self.old) item.entry.now)) }
        ensures known { OnOk result ((name : List ℕ) → has self.new name ≡ also item.entry.now (has self.old) name) }
    {
        match label_of(item) {
            None => Ok(None),
            Some(label) => {
                let found = self.first_at(label)?;
                Ok(found)
            }
        }
    }
}

/// The name of a register or a window, and where it stands.
fn label_of(item: &Item) -> Option<Label<'_>>
    ensures { option_map named result ≡ name_of item.now }
{
    match item {
        Item::Reg(register) => Some(Label {
            name: register.name.as_str(),
            at: register.at,
        }),
        Item::Window(window) => Some(Label {
            name: window.name.as_str(),
            at: window.at,
        }),
        Item::SkipTo { .. } | Item::Reserved { .. } => None,
    }
}

/// The first item that has a name that is known, or the name of an earlier item.
pub fn first_known<'a>(mut known: Names, items: &'a [Item]) -> Result<Option<Found<'a>>, Memory>
    ensures { IfOk result (λ found. sees found ≡ first_of (names_twice (has known) items.entry.now)) }
{
    let mut first = None;
    for item in items {
        first = earlier_of(first, known.first_in_item(item)?);
    }
    Ok(first)
}
