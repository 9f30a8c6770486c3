//! The parameters of a block, found by their names.

ghost use Rattle.std.specs.Prelude.{◌≡◌, IfOk};
ghost use Rattle.cg_keys.specs.Lookups.{number_at};
ghost use Rattle.cg_blkread.specs.Raw.{count_at, parameter_number, parameter_of, parameters};

use cg_base::Memory;
use cg_hjson::{Member, Tree};
use cg_keys::{elements, members, number_at, text_at};
use std::alloc::Global;
use std::collections::HashMap;
use std::marker::Model;

/// The parameters of a block in written order, with the numbers of the first ones of each name.
#[derive(Drop)]
pub(crate) struct Parameters<'a> {
    written: &'a [Tree],
    numbers: HashMap<&'a str, Option<u32>>,
}

impl<'a> Model for Parameters<'a> {
    ghost use Rattle.std.specs.Prelude.{◌≡◌, ℕ, List, map, bytes_eq, unwrap_or, None};
    ghost use Rattle.std.specs.HashMap.{get_by};
    ghost use Rattle.cg_blkread.specs.Raw.{Parameter, parameter_number, parameter_of};

    ghost Value = { List Parameter };

    ghost view = { λ p. map parameter_of p.written.now };

    ghost invariant = { λ p. (name : List ℕ) → unwrap_or (get_by (λ k. bytes_eq name k.now) p.numbers) None
        ≡ parameter_number (map parameter_of p.written.now) name };
}

/// The number at a key, from 0 to 2^32 - 1.
pub(crate) fn word_at(members: &[Member], key: &str) -> Option<u32>
    ensures { result ≡ number_at 0 4294967295 key.now members.now }
{
    let number = number_at(0, u64::from(u32::MAX), members, key)?;
    Some(number as u32)
}

#[tactic(auto, unfolding(crate::specs::Raw::parameter_of))]
fn parameter_name(tree: &Tree) -> &str
    ensures { result.now ≡ (parameter_of tree.now).name }
{
    text_at(members(tree), "name").unwrap_or("")
}

#[tactic(auto, unfolding(crate::specs::Raw::parameter_of))]
fn parameter_default(tree: &Tree) -> Option<u32>
    ensures { result ≡ (parameter_of tree.now).number }
{
    word_at(members(tree), "default")
}

impl<'a> Parameters<'a> {
    /// The parameters of the block with these members.
    pub(crate) fn of(alloc: Global, block: &'a [Member]) -> Result<Parameters<'a>, Memory>
        ensures { IfOk result (λ ps. ps ≡ parameters block.now) }
    {
        let written = elements(block, "param_list");
        let mut numbers = HashMap::new(alloc);
        for parameter in written {
            let name = parameter_name(parameter);
            if numbers.contains_key(name) {
                continue;
            }
            numbers.insert(name, parameter_default(parameter))?;
        }
        Ok(Parameters { written, numbers })
    }

    /// The number of the first parameter of the name, where it has one.
    fn number(&self, name: &str) -> Option<u32>
        ensures { result ≡ parameter_number self.now name.now }
    {
        *self.numbers.get(name)?
    }

    /// The number at a key, or that of the parameter which is named there.
    #[tactic(auto, unfolding(crate::specs::Raw::count_at))]
    pub(crate) fn count_at(&self, members: &[Member], key: &str) -> Option<u32>
        ensures { result ≡ count_at self.now key.now members.now }
    {
        match word_at(members, key) {
            Some(number) => Some(number),
            None => self.number(text_at(members, key)?),
        }
    }
}
