//! Entries with everything said.

ghost use Rattle.std.specs.Prelude.{◌≡◌, IfOk, codes, unwrap_or};
ghost use Rattle.serde_json.specs.View.{view};
ghost use Rattle.cg_desc.specs.declared.block.SwAccess.TheVariants.{Rw};
ghost use Rattle.cg_keys.specs.Lookups.{window_access_at};
ghost use Rattle.cg_keys.specs.Values.{members_of};
ghost use Rattle.cg_blkdone.specs.Full.{copy_pairs, full_entry, full_multireg, full_register, full_window, register_pairs, window_pairs, with_all};
ghost use Rattle.cg_blkdone.specs.Parts.{IsKept};

use crate::fields::register_fields;
use crate::plain::{hardware, software, truth};
use crate::putting::{number_or_zero, said_with, with, with_number_if, with_word};
use cg_base::Memory;
use cg_blkread::{is_compact, is_true, register_reset, shared_of};
use cg_desc::SwAccess;
use cg_hjson::{Member, Tree, to_json};
use cg_keys::{members, value_at, window_access_at};
use serde_json::Value;
use std::alloc::Global;

/// A value with what is known of the register that a tree is.
#[tactic(auto, unfolding(crate::specs::Full::register_pairs), using(crate::proofs::InTurn::with_more, crate::proofs::InTurn::with_last))]
fn with_register(alloc: Global, value: Value, tree: &Tree) -> Result<Value, Memory>
    requires { IsKept tree.now }
    ensures { IfOk result (λ v. view v ≡ with_all (register_pairs (members_of tree.now)) (view value)) }
{
    let members = members(tree);
    let shared = shared_of(members);
    let value = with(alloc, value, "swaccess", software(alloc, shared.sw)?)?;
    let value = with(alloc, value, "hwaccess", hardware(alloc, shared.hw)?)?;
    let value = with(alloc, value, "hwext", truth(is_true(members, "hwext")))?;
    let value = with(alloc, value, "hwqe", truth(is_true(members, "hwqe")))?;
    let value = with(alloc, value, "hwre", truth(is_true(members, "hwre")))?;
    let value = with(
        alloc,
        value,
        "shadowed",
        truth(is_true(members, "shadowed")),
    )?;
    let value = with(alloc, value, "fields", register_fields(alloc, tree)?)?;
    let value = with_number_if(alloc, value, "resval", register_reset(members))?;
    Ok(value)
}

fn full_register(alloc: Global, tree: &Tree) -> Result<Value, Memory>
    requires { IsKept tree.now }
    ensures { IfOk result (λ v. view v ≡ full_register tree.now) }
{
    let value = to_json(alloc, tree)?;
    let value = with_register(alloc, value, tree)?;
    Ok(value)
}

#[tactic(auto, unfolding(crate::specs::Full::copy_pairs), using(crate::proofs::InTurn::with_more, crate::proofs::InTurn::with_last, crate::proofs::InTurn::with_append))]
fn full_multireg(alloc: Global, tree: &Tree) -> Result<Value, Memory>
    requires { IsKept tree.now }
    ensures { IfOk result (λ v. view v ≡ full_multireg tree.now) }
{
    let members = members(tree);
    let own_gates = is_true(members, "regwen_multi");
    let value = full_register(alloc, tree)?;
    let value = with(alloc, value, "regwen_multi", truth(own_gates))?;
    let value = with(alloc, value, "compact", truth(is_compact(members)))?;
    let value = with_word(alloc, value, members, "count")?;
    Ok(value)
}

fn window_access(members: &[Member]) -> SwAccess
    ensures { result ≡ unwrap_or (window_access_at (codes "swaccess") members.now) Rw }
{
    window_access_at(members, "swaccess").unwrap_or(SwAccess::Rw)
}

#[tactic(auto, unfolding(crate::specs::Full::window_pairs), using(crate::proofs::InTurn::with_more, crate::proofs::InTurn::with_last))]
fn full_window(alloc: Global, tree: &Tree) -> Result<Value, Memory>
    requires { IsKept tree.now }
    ensures { IfOk result (λ v. view v ≡ full_window tree.now) }
{
    let members = members(tree);
    let access = window_access(members);
    let value = to_json(alloc, tree)?;
    let value = with(
        alloc,
        value,
        "byte-write",
        truth(is_true(members, "byte-write")),
    )?;
    let value = with(alloc, value, "swaccess", software(alloc, access)?)?;
    let value = with_word(alloc, value, members, "items")?;
    Ok(value)
}

/// An entry: a multireg, a window, a skip or a reservation by its key, and else a register.
#[tactic(auto, unfolding(crate::specs::Full::full_entry), using(crate::proofs::Kept::kept_at))]
pub(crate) fn full_entry(alloc: Global, tree: &Tree) -> Result<Value, Memory>
    requires { IsKept tree.now }
    ensures { IfOk result (λ v. view v ≡ full_entry tree.now) }
{
    let members = members(tree);
    if let Some(multireg) = value_at(members, "multireg") {
        let part = full_multireg(alloc, multireg)?;
        return Ok(said_with(alloc, tree, "multireg", part)?);
    }
    if let Some(window) = value_at(members, "window") {
        let part = full_window(alloc, window)?;
        return Ok(said_with(alloc, tree, "window", part)?);
    }
    if let Some(to) = value_at(members, "skipto") {
        return Ok(said_with(alloc, tree, "skipto", number_or_zero(to))?);
    }
    if let Some(words) = value_at(members, "reserved") {
        return Ok(said_with(alloc, tree, "reserved", number_or_zero(words))?);
    }
    let value = full_register(alloc, tree)?;
    Ok(value)
}
