//! The sections of a top with everything said: its clocks, its pads and its signals.

ghost use Rattle.std.specs.Prelude.{◌≡◌, IfOk, option_map};
ghost use Rattle.serde_json.specs.View.{view};
ghost use Rattle.cg_keys.specs.Table.{value_at};
ghost use Rattle.cg_keys.specs.Values.{members_of};
ghost use Rattle.cg_blkdone.specs.Full.{pair_if, with_all};
ghost use Rattle.cg_blkdone.specs.Parts.{IsKept};
ghost use Rattle.cg_done.specs.FullTop.{full_clocks, full_pinmux, full_pinout};
ghost use Rattle.cg_done.specs.Parts.{section_by};

use crate::lists::{Part, with_list};
use cg_base::Memory;
use cg_blkdone::with;
use cg_hjson::{Tree, to_json};
use cg_keys::{members, value_at};
use serde_json::Value;
use std::alloc::Global;

/// A section of a top.
#[derive(Clone, Copy)]
pub(crate) enum Section {
    Clocks,
    Pinout,
    Pinmux,
}

#[tactic(auto, unfolding(crate::specs::FullTop::full_clocks))]
fn full_clocks(alloc: Global, tree: &Tree) -> Result<Value, Memory>
    requires { IsKept tree.now }
    ensures { IfOk result (λ v. view v ≡ full_clocks tree.now) }
{
    let value = to_json(alloc, tree)?;
    let value = with_list(alloc, value, Part::Named, tree, "derived_srcs")?;
    Ok(value)
}

#[tactic(auto, unfolding(crate::specs::FullTop::full_pinout))]
fn full_pinout(alloc: Global, tree: &Tree) -> Result<Value, Memory>
    requires { IsKept tree.now }
    ensures { IfOk result (λ v. view v ≡ full_pinout tree.now) }
{
    let value = to_json(alloc, tree)?;
    let value = with_list(alloc, value, Part::Named, tree, "pads")?;
    Ok(value)
}

#[tactic(auto, unfolding(crate::specs::FullTop::full_pinmux))]
fn full_pinmux(alloc: Global, tree: &Tree) -> Result<Value, Memory>
    requires { IsKept tree.now }
    ensures { IfOk result (λ v. view v ≡ full_pinmux tree.now) }
{
    let value = to_json(alloc, tree)?;
    let value = with_list(alloc, value, Part::Signal, tree, "signals")?;
    Ok(value)
}

fn full_section(alloc: Global, section: Section, tree: &Tree) -> Result<Value, Memory>
    requires { IsKept tree.now }
    ensures { IfOk result (λ v. view v ≡ section_by section tree.now) }
{
    match section {
        Section::Clocks => Ok(full_clocks(alloc, tree)?),
        Section::Pinout => Ok(full_pinout(alloc, tree)?),
        Section::Pinmux => Ok(full_pinmux(alloc, tree)?),
    }
}

/// A value with the section that a tree has at a key, if it has it.
#[tactic(auto, using(cg_blkdone::proofs::Kept::kept_at, cg_blkdone::proofs::InTurn::with_nothing))]
pub(crate) fn with_section(
    alloc: Global,
    value: Value,
    section: Section,
    tree: &Tree,
    key: &str,
) -> Result<Value, Memory>
    requires { IsKept tree.now }
    ensures { IfOk result (λ v. view v ≡ with_all (pair_if key.now (option_map (section_by section) (value_at key.now (members_of tree.now)))) (view value)) }
{
    match value_at(members(tree), key) {
        Some(part) => Ok(with(alloc, value, key, full_section(alloc, section, part)?)?),
        None => Ok(value),
    }
}
