//! Names that can be looked up.

ghost use Rattle.std.specs.Prelude.{◌≡◌, ◌||◌, ℕ, List, false, map, IfOk, OnOk};
ghost use Rattle.std.specs.Str.{bytes_eq};
ghost use Rattle.cg_svspec.specs.Names.{is_among};
ghost use Rattle.cg_svcheck.specs.Lookups.{has};

use cg_base::Memory;
use std::alloc::Global;
use std::collections::HashSet;

/// A set of names.
#[derive(Drop)]
pub struct Names<'a> {
    seen: HashSet<&'a str>,
}

impl<'a> Names<'a> {
    /// No names.
    pub fn new(alloc: Global) -> Names<'a>
        ensures { (n : List ℕ) → has result n ≡ false }
    {
        Names {
            seen: HashSet::new(alloc),
        }
    }

    /// Whether the name is there.
    pub fn has(&self, name: &str) -> bool
        ensures { result ≡ has self.now name.now }
    {
        self.seen.contains(name)
    }

    /// Adds a name.
    pub fn add(&mut self, name: &'a str) -> Result<(), Memory>
        ensures { OnOk result ((n : List ℕ) → has self.new n ≡ (bytes_eq name.now n || has self.old n)) }
    {
        self.seen.insert(name)?;
        Ok(())
    }

    /// These names.
    pub fn of(alloc: Global, list: &[&'a str]) -> Result<Names<'a>, Memory>
        ensures { IfOk result (λ names. (n : List ℕ) → has names n ≡ is_among (map (λ s. s.now) list.now) n) }
    {
        let mut names = Names::new(alloc);
        for name in list {
            names.add(*name)?;
        }
        Ok(names)
    }
}
