//! Instances, crossbars and signals with everything said, and lists of them.

ghost use Rattle.std.specs.Prelude.{◌≡◌, [], ◌∷◌, IfOk, codes, map, unwrap_or};
ghost use Rattle.serde_json.specs.View.{view};
ghost use Rattle.cg_keys.specs.Lookups.{text_at};
ghost use Rattle.cg_keys.specs.Values.{members_of};
ghost use Rattle.cg_topread.specs.Described.{hart};
ghost use Rattle.cg_blkdone.specs.Full.{list_of, list_pair, with_all};
ghost use Rattle.cg_blkdone.specs.Parts.{AreKept, IsKept};
ghost use Rattle.cg_done.specs.FullTop.{as_it_stands, full_instance, full_signal, full_use};
ghost use Rattle.cg_done.specs.Parts.{full_by};

use crate::bases::{with_base, with_each_base};
use crate::values::{no_ports, said_or};
use cg_base::Memory;
use cg_blkdone::{said_with, text, with};
use cg_hjson::{Member, Tree, to_json};
use cg_keys::{elements, members, text_at};
use serde_json::Value;
use std::alloc::Global;

/// What the parts of a list are.
#[derive(Clone, Copy)]
pub(crate) enum Part {
    Instance,
    Crossbar,
    Signal,
    Named,
}

#[tactic(auto, unfolding(crate::specs::FullTop::full_instance, crate::specs::FullTop::instance_pairs))]
fn full_instance(alloc: Global, tree: &Tree) -> Result<Value, Memory>
    requires { IsKept tree.now }
    ensures { IfOk result (λ v. view v ≡ full_instance tree.now) }
{
    let clocks = said_or(alloc, tree, "clock_srcs", no_ports(alloc))?;
    let resets = said_or(alloc, tree, "reset_connections", no_ports(alloc))?;
    let value = to_json(alloc, tree)?;
    let value = with(alloc, value, "clock_srcs", clocks)?;
    let value = with(alloc, value, "reset_connections", resets)?;
    let value = with_base(alloc, value, tree)?;
    let value = with_each_base(alloc, value, tree)?;
    Ok(value)
}

/// The address space that a crossbar names, or else the one that is meant where none is named.
fn space_of(members: &[Member]) -> &str
    ensures { result.now ≡ unwrap_or (text_at (codes "addr_space") members.now) hart }
{
    text_at(members, "addr_space").unwrap_or("hart")
}

#[tactic(auto, unfolding(crate::specs::FullTop::full_use, crate::specs::FullTop::use_pairs))]
fn full_use(alloc: Global, tree: &Tree) -> Result<Value, Memory>
    requires { IsKept tree.now }
    ensures { IfOk result (λ v. view v ≡ full_use tree.now) }
{
    let space = space_of(members(tree));
    let sources = said_or(alloc, tree, "clock_srcs", no_ports(alloc))?;
    let value = to_json(alloc, tree)?;
    let value = with(alloc, value, "addr_space", text(alloc, space)?)?;
    let value = with(alloc, value, "clock_srcs", sources)?;
    Ok(value)
}

#[tactic(auto, unfolding(crate::specs::FullTop::full_signal))]
fn full_signal(alloc: Global, tree: &Tree) -> Result<Value, Memory>
    requires { IsKept tree.now }
    ensures { IfOk result (λ v. view v ≡ full_signal tree.now) }
{
    let port = text_at(members(tree), "port").unwrap_or("");
    let value = said_with(alloc, tree, "port", text(alloc, port)?)?;
    Ok(value)
}

fn as_it_stands(alloc: Global, tree: &Tree) -> Result<Value, Memory>
    requires { IsKept tree.now }
    ensures { IfOk result (λ v. view v ≡ as_it_stands tree.now) }
{
    let value = to_json(alloc, tree)?;
    Ok(value)
}

fn full_part(alloc: Global, part: Part, tree: &Tree) -> Result<Value, Memory>
    requires { IsKept tree.now }
    ensures { IfOk result (λ v. view v ≡ full_by part tree.now) }
{
    match part {
        Part::Instance => Ok(full_instance(alloc, tree)?),
        Part::Crossbar => Ok(full_use(alloc, tree)?),
        Part::Signal => Ok(full_signal(alloc, tree)?),
        Part::Named => Ok(as_it_stands(alloc, tree)?),
    }
}

fn full_list(alloc: Global, part: Part, items: &[Tree]) -> Result<Value, Memory>
    requires { AreKept items.now }
    ensures { IfOk result (λ v. view v ≡ list_of (map (full_by part) items.now)) }
{
    let mut list = Vec::new(alloc);
    for item in items {
        let value = full_part(alloc, part, item)?;
        list.push(value)?;
    }
    Ok(Value::from(list))
}

/// A value with the list of parts that a tree has at a key, which is empty where there is none.
#[tactic(auto, using(cg_blkdone::proofs::Kept::kept_elements))]
pub(crate) fn with_list(
    alloc: Global,
    value: Value,
    part: Part,
    tree: &Tree,
    key: &str,
) -> Result<Value, Memory>
    requires { IsKept tree.now }
    ensures { IfOk result (λ v. view v ≡ with_all (list_pair key.now (full_by part) (members_of tree.now) ∷ []) (view value)) }
{
    let list = full_list(alloc, part, elements(members(tree), key))?;
    let value = with(alloc, value, key, list)?;
    Ok(value)
}
