//! Entries as they are written.

ghost use Rattle.std.specs.Prelude.{◌≡◌, ◌++◌, IfOk, OnOk, flat_map, map, option_map};
ghost use Rattle.cg_keys.specs.Values.{items_of};
ghost use Rattle.cg_blkread.specs.Views.{list_of};
ghost use Rattle.cg_blkread.specs.Raw.{is_compact, number_or_zero, raw_entry, raw_multireg, raw_register, raw_window};
ghost use Rattle.cg_blkread.specs.Reads.{raw_entries};

use crate::entry_lists::{EntryList, entry_lists};
use crate::parameters::Parameters;
use crate::raw::{RawEntry, RawMultireg, RawRegister, RawWindow};
use crate::read_fields::{is_true, register_reset, shared_of, written_fields};
use cg_base::{List, Memory, Text};
use cg_desc::SwAccess;
use cg_hjson::{Member, Tree};
use cg_keys::{
    boolean_at, elements, items, members, number_within, place_at, text_at, value_at,
    window_access_at,
};
use std::alloc::Global;

/// A copy of a text, where there is one.
pub(crate) fn copy_of(alloc: Global, text: Option<&str>) -> Result<Option<Text>, Memory>
    ensures { IfOk result (λ copy. copy ≡ option_map (λ s. s.now) text.entry) }
{
    match text {
        Some(text) => Ok(Some(Text::of(alloc, text)?)),
        None => Ok(None),
    }
}

#[tactic(auto, unfolding(crate::specs::Raw::raw_register))]
fn read_register(alloc: Global, tree: &Tree) -> Result<RawRegister, Memory>
    ensures { IfOk result (λ register. register ≡ raw_register tree.now) }
{
    let members = members(tree);
    let shared = shared_of(members);
    let fields = written_fields(alloc, &shared, elements(members, "fields"))?;
    let name = Text::of(alloc, text_at(members, "name").unwrap_or(""))?;
    let regwen = copy_of(alloc, text_at(members, "regwen"))?;
    Ok(RawRegister {
        name,
        fields,
        fields_at: place_at(members, "fields", tree.at),
        resval: register_reset(members),
        resval_at: place_at(members, "resval", tree.at),
        regwen,
        regwen_at: place_at(members, "regwen", tree.at),
        hwext: is_true(members, "hwext"),
        hwqe: is_true(members, "hwqe"),
        hwre: is_true(members, "hwre"),
        shadowed: is_true(members, "shadowed"),
        at: place_at(members, "name", tree.at),
    })
}

/// Whether the copies of a multireg with these members are compacted.
#[tactic(auto, unfolding(crate::specs::Raw::is_compact))]
pub fn is_compact(members: &[Member]) -> bool
    ensures { result ≡ is_compact members.now }
{
    elements(members, "fields").len() == 1
        && !is_true(members, "regwen_multi")
        && boolean_at(members, "compact").unwrap_or(true)
}

#[tactic(auto, unfolding(crate::specs::Raw::raw_multireg))]
fn read_multireg(alloc: Global, parameters: &Parameters, tree: &Tree) -> Result<RawMultireg, Memory>
    ensures { IfOk result (λ multireg. multireg ≡ raw_multireg parameters.now tree.now) }
{
    let members = members(tree);
    let register = read_register(alloc, tree)?;
    Ok(RawMultireg {
        register,
        count: parameters.count_at(members, "count"),
        count_at: place_at(members, "count", tree.at),
        compact: is_compact(members),
        regwen_multi: is_true(members, "regwen_multi"),
    })
}

#[tactic(auto, unfolding(crate::specs::Raw::raw_window))]
fn read_window(alloc: Global, parameters: &Parameters, tree: &Tree) -> Result<RawWindow, Memory>
    ensures { IfOk result (λ window. window ≡ raw_window parameters.now tree.now) }
{
    let members = members(tree);
    let name = Text::of(alloc, text_at(members, "name").unwrap_or(""))?;
    Ok(RawWindow {
        name,
        items: parameters.count_at(members, "items"),
        items_at: place_at(members, "items", tree.at),
        byte_write: is_true(members, "byte-write"),
        sw: window_access_at(members, "swaccess").unwrap_or(SwAccess::Rw),
        at: place_at(members, "name", tree.at),
    })
}

fn number_or_zero(tree: &Tree) -> u32
    ensures { result ≡ number_or_zero tree.now }
{
    match number_within(0, u64::from(u32::MAX), tree) {
        Some(number) => number as u32,
        None => 0,
    }
}

/// An entry: a multireg, a window, a skip or a reservation by its key, and else a register.
#[tactic(auto, unfolding(crate::specs::Raw::raw_entry))]
pub(crate) fn read_entry(
    alloc: Global,
    parameters: &Parameters,
    tree: &Tree,
) -> Result<RawEntry, Memory>
    ensures { IfOk result (λ entry. entry ≡ raw_entry parameters.now tree.now) }
{
    let members = members(tree);
    if let Some(multireg) = value_at(members, "multireg") {
        let multireg = read_multireg(alloc, parameters, multireg)?;
        return Ok(RawEntry::Multireg(multireg));
    }
    if let Some(window) = value_at(members, "window") {
        let window = read_window(alloc, parameters, window)?;
        return Ok(RawEntry::Window(window));
    }
    if let Some(to) = value_at(members, "skipto") {
        return Ok(RawEntry::SkipTo {
            to: number_or_zero(to),
            at: to.at,
        });
    }
    if let Some(words) = value_at(members, "reserved") {
        return Ok(RawEntry::Reserved {
            words: number_or_zero(words),
            at: words.at,
        });
    }
    let register = read_register(alloc, tree)?;
    Ok(RawEntry::Register(register))
}

/// Appends the entries of a list.
fn read_entries(
    alloc: Global,
    parameters: &Parameters,
    items: &[Tree],
    entries: &mut List<RawEntry>,
) -> Result<(), Memory>
    ensures { OnOk result (entries.new ≡ entries.old ++ map (raw_entry parameters.now) items.now) }
{
    for item in items {
        entries.push(read_entry(alloc, parameters, item)?)?;
    }
    Ok(())
}

/// All entries of the lists.
fn read_lists(
    alloc: Global,
    parameters: &Parameters,
    lists: &[EntryList],
) -> Result<List<RawEntry>, Memory>
    ensures { IfOk result (λ entries. entries ≡ flat_map (λ l. map (raw_entry parameters.now) (items_of l.value)) (map list_of lists.now)) }
{
    let mut entries = List::new(alloc);
    for list in lists {
        read_entries(alloc, parameters, items(list.value), &mut entries)?;
    }
    Ok(entries)
}

/// All entries of the block with these members, in the order of their lists.
#[tactic(auto, unfolding(crate::specs::Reads::raw_entries))]
pub(crate) fn read_block(alloc: Global, block: &[Member]) -> Result<List<RawEntry>, Memory>
    ensures { IfOk result (λ entries. entries ≡ raw_entries block.now) }
{
    let parameters = Parameters::of(alloc, block)?;
    let lists = entry_lists(alloc, block)?;
    Ok(read_lists(alloc, &parameters, lists.as_slice())?)
}
