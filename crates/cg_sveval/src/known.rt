//! A table of values by name.

ghost use Rattle.std.specs.Prelude.{◌≡◌, ℕ, List, [], OnOk};
ghost use Rattle.cg_sveval.specs.Tables.{Same, with_value};
ghost use Rattle.cg_sveval.specs.Lookups.{value_in};

use cg_base::Memory;
use std::alloc::Global;
use std::collections::HashMap;

/// The values that are known so far. Any other name has no bits.
#[derive(Drop)]
pub(crate) struct Known<'a> {
    values: HashMap<&'a str, Vec<bool>>,
}

impl<'a> Known<'a> {
    /// Nothing is known.
    pub(crate) fn new(alloc: Global) -> Known<'a>
        ensures { (name : List ℕ) → value_in result name ≡ [] }
    {
        Known {
            values: HashMap::new(alloc),
        }
    }

    /// The value of a net.
    pub(crate) fn value(&self, name: &str) -> &[bool]
        ensures { result.now ≡ value_in self.now name.now }
    {
        match self.values.get(name) {
            Some(value) => value.as_slice(),
            None => &[],
        }
    }

    /// Gives a net its value.
    pub(crate) fn put(&mut self, name: &'a str, value: Vec<bool>) -> Result<(), Memory>
        ensures { OnOk result (Same (value_in self.new) (with_value name.now value.items (value_in self.old))) }
    {
        self.values.insert(name, value)?;
        Ok(())
    }
}
