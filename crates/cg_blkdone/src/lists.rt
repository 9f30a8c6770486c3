//! Lists of parts with everything said.

ghost use Rattle.std.specs.Prelude.{◌≡◌, [], ◌∷◌, IfOk, codes, map};
ghost use Rattle.serde_json.specs.View.{view};
ghost use Rattle.cg_keys.specs.Elements.{elements};
ghost use Rattle.cg_keys.specs.Table.{value_at};
ghost use Rattle.cg_keys.specs.Values.{members_of, object_in};
ghost use Rattle.cg_blkdone.specs.Full.{entries_pairs, full_alert, full_entries, full_interrupt, full_lists, full_parameter, full_pin, list_of, list_pair, lists_in, with_all};
ghost use Rattle.cg_blkdone.specs.Parts.{AreKept, IsKept, ValuesAreKept, full_by};

use crate::entries::full_entry;
use crate::plain::{text, truth};
use crate::putting::{said_with, with, with_word, word_or};
use cg_base::Memory;
use cg_hjson::{Member, Tree, to_json};
use cg_keys::{elements, items, members, object, text_at, value_at};
use serde_json::Value;
use std::alloc::Global;

/// What the parts of a list are.
#[derive(Clone, Copy)]
pub(crate) enum Part {
    Interrupt,
    Alert,
    Parameter,
    Pin,
    Entry,
}

#[tactic(auto, unfolding(crate::specs::Full::full_interrupt), using(crate::proofs::InTurn::with_more))]
fn full_interrupt(alloc: Global, tree: &Tree) -> Result<Value, Memory>
    requires { IsKept tree.now }
    ensures { IfOk result (λ v. view v ≡ full_interrupt tree.now) }
{
    let members = members(tree);
    let kind = text_at(members, "type").unwrap_or("event");
    let value = to_json(alloc, tree)?;
    let value = with(alloc, value, "type", text(alloc, kind)?)?;
    let value = with(alloc, value, "width", word_or(members, "width", 1))?;
    Ok(value)
}

#[tactic(auto, unfolding(crate::specs::Full::full_parameter))]
fn full_parameter(alloc: Global, tree: &Tree) -> Result<Value, Memory>
    requires { IsKept tree.now }
    ensures { IfOk result (λ v. view v ≡ full_parameter tree.now) }
{
    let value = to_json(alloc, tree)?;
    let value = with_word(alloc, value, members(tree), "default")?;
    Ok(value)
}

#[tactic(auto, unfolding(crate::specs::Full::full_pin))]
fn full_pin(alloc: Global, tree: &Tree) -> Result<Value, Memory>
    requires { IsKept tree.now }
    ensures { IfOk result (λ v. view v ≡ full_pin tree.now) }
{
    let width = word_or(members(tree), "width", 1);
    let value = said_with(alloc, tree, "width", width)?;
    Ok(value)
}

#[tactic(auto, unfolding(crate::specs::Full::full_alert))]
fn full_alert(alloc: Global, tree: &Tree) -> Result<Value, Memory>
    requires { IsKept tree.now }
    ensures { IfOk result (λ v. view v ≡ full_alert tree.now) }
{
    let value = to_json(alloc, tree)?;
    Ok(value)
}

fn full_part(alloc: Global, part: Part, tree: &Tree) -> Result<Value, Memory>
    requires { IsKept tree.now }
    ensures { IfOk result (λ v. view v ≡ full_by part tree.now) }
{
    match part {
        Part::Interrupt => Ok(full_interrupt(alloc, tree)?),
        Part::Alert => Ok(full_alert(alloc, tree)?),
        Part::Parameter => Ok(full_parameter(alloc, tree)?),
        Part::Pin => Ok(full_pin(alloc, tree)?),
        Part::Entry => Ok(full_entry(alloc, tree)?),
    }
}

fn full_list(alloc: Global, part: Part, items: &[Tree]) -> Result<Value, Memory>
    requires { AreKept items.now }
    ensures { IfOk result (λ v. view v ≡ list_of (map (full_by part) items.now)) }
{
    let mut list = Vec::new(alloc);
    for item in items {
        let value = full_part(alloc, part, item)?;
        list.push(value)?;
    }
    Ok(Value::from(list))
}

/// A value with the list of parts that a tree has at a key, which is empty where there is none.
#[tactic(auto, using(crate::proofs::Kept::kept_elements))]
pub(crate) fn with_list(
    alloc: Global,
    value: Value,
    part: Part,
    tree: &Tree,
    key: &str,
) -> Result<Value, Memory>
    requires { IsKept tree.now }
    ensures { IfOk result (λ v. view v ≡ with_all (list_pair key.now (full_by part) (members_of tree.now) ∷ []) (view value)) }
{
    let list = full_list(alloc, part, elements(members(tree), key))?;
    let value = with(alloc, value, key, list)?;
    Ok(value)
}

#[tactic(auto, using(crate::proofs::Kept::kept_items))]
fn full_entries(alloc: Global, tree: &Tree) -> Result<Value, Memory>
    requires { IsKept tree.now }
    ensures { IfOk result (λ v. view v ≡ full_entries tree.now) }
{
    let value = full_list(alloc, Part::Entry, items(tree))?;
    Ok(value)
}

fn with_lists(alloc: Global, value: Value, members: &[Member]) -> Result<Value, Memory>
    requires { ValuesAreKept members.now }
    ensures { IfOk result (λ v. view v ≡ with_all (entries_pairs members.now) (view value)) }
{
    let mut whole = value;
    for member in members {
        let entries = full_entries(alloc, &member.value)?;
        whole = with(alloc, whole, member.key.as_str(), entries)?;
    }
    Ok(whole)
}

#[tactic(auto, using(crate::proofs::Kept::kept_members))]
fn lists_in(alloc: Global, tree: &Tree) -> Result<Value, Memory>
    requires { IsKept tree.now }
    ensures { IfOk result (λ v. view v ≡ lists_in tree.now (object_in tree.now)) }
{
    match object(tree) {
        Some(lists) => {
            let value = to_json(alloc, tree)?;
            let value = with_lists(alloc, value, lists)?;
            Ok(value)
        }
        None => Ok(full_entries(alloc, tree)?),
    }
}

/// A value with the lists of entries that a tree has.
#[tactic(auto, unfolding(crate::specs::Full::full_lists), using(crate::proofs::Kept::kept_at, crate::proofs::InTurn::with_nothing))]
pub(crate) fn with_registers(alloc: Global, value: Value, tree: &Tree) -> Result<Value, Memory>
    requires { IsKept tree.now }
    ensures { IfOk result (λ v. view v ≡ with_all (full_lists (value_at (codes "registers") (members_of tree.now))) (view value)) }
{
    match value_at(members(tree), "registers") {
        Some(registers) => {
            let lists = lists_in(alloc, registers)?;
            let value = with(alloc, value, "registers", lists)?;
            Ok(value)
        }
        None => Ok(value),
    }
}
