//! The lists of entries of a block.

ghost use Rattle.std.specs.Prelude.{◌≡◌, map, IfOk};
ghost use Rattle.cg_blkread.specs.Interfaces.{entry_lists, first_members};
ghost use Rattle.cg_blkread.specs.Views.{list_of, member_list};

use cg_base::Memory;
use cg_hjson::{Member, Tree};
use cg_keys::{object, value_at};
use std::alloc::Global;
use std::collections::HashSet;

/// A key, and the value that is to be a list of entries.
#[derive(Clone, Copy)]
pub struct EntryList<'a> {
    pub key: &'a str,
    pub value: &'a Tree,
}

/// Each member of `registers` as a list of entries. Where a key stands twice, its first member counts.
pub(crate) fn lists_of(alloc: Global, members: &[Member]) -> Result<Vec<EntryList<'_>>, Memory>
    ensures { IfOk result (λ lists. map list_of lists.items ≡ map member_list (first_members members.now)) }
{
    let mut seen = HashSet::new(alloc);
    let mut lists = Vec::new(alloc);
    for member in members {
        let key = member.key.as_str();
        if !seen.insert(key)? {
            continue;
        }
        lists.push(EntryList {
            key,
            value: &member.value,
        })?;
    }
    Ok(lists)
}

/// The lists of entries: `registers` itself, or each of its members.
#[tactic(auto, unfolding(crate::specs::Interfaces::entry_lists))]
pub(crate) fn entry_lists(alloc: Global, block: &[Member]) -> Result<Vec<EntryList<'_>>, Memory>
    ensures { IfOk result (λ lists. map list_of lists.items ≡ entry_lists block.now) }
{
    let mut lists = Vec::new(alloc);
    let Some(value) = value_at(block, "registers") else {
        return Ok(lists);
    };
    if let Some(members) = object(value) {
        return Ok(lists_of(alloc, members)?);
    }
    lists.push(EntryList {
        key: "registers",
        value,
    })?;
    Ok(lists)
}
