//! Base addresses with everything said.

ghost use Rattle.std.specs.Prelude.{◌≡◌, IfOk, codes, option_map};
ghost use Rattle.serde_json.specs.View.{view};
ghost use Rattle.cg_keys.specs.Table.{value_at};
ghost use Rattle.cg_keys.specs.Values.{members_of};
ghost use Rattle.cg_blkdone.specs.Full.{pair_if, with_all};
ghost use Rattle.cg_blkdone.specs.Parts.{IsKept, ValuesAreKept, each_pair};
ghost use Rattle.cg_done.specs.FullTop.{full_base, full_bases};
ghost use Rattle.cg_done.specs.Parts.{plain_base};

use cg_base::Memory;
use cg_blkdone::{number_or_zero, with};
use cg_hjson::{Member, Tree, to_json};
use cg_keys::{members, object, value_at};
use serde_json::Value;
use std::alloc::Global;

#[tactic(auto, unfolding(cg_topread::specs::Described::base_in))]
fn plain_base(tree: &Tree) -> Value
    ensures { view result ≡ plain_base tree.now }
{
    number_or_zero(tree)
}

/// A value with the number that each of these members is.
fn with_numbers(alloc: Global, value: Value, members: &[Member]) -> Result<Value, Memory>
    ensures { IfOk result (λ v. view v ≡ with_all (each_pair plain_base members.now) (view value)) }
{
    let mut whole = value;
    for member in members {
        let number = plain_base(&member.value);
        whole = with(alloc, whole, member.key.as_str(), number)?;
    }
    Ok(whole)
}

/// A base address, or one for each address space.
#[tactic(auto, unfolding(crate::specs::FullTop::full_base))]
fn full_base(alloc: Global, tree: &Tree) -> Result<Value, Memory>
    requires { IsKept tree.now }
    ensures { IfOk result (λ v. view v ≡ full_base tree.now) }
{
    match object(tree) {
        Some(bases) => {
            let value = to_json(alloc, tree)?;
            let value = with_numbers(alloc, value, bases)?;
            Ok(value)
        }
        None => Ok(plain_base(tree)),
    }
}

/// A value with the base addresses that each of these members is.
fn with_bases(alloc: Global, value: Value, members: &[Member]) -> Result<Value, Memory>
    requires { ValuesAreKept members.now }
    ensures { IfOk result (λ v. view v ≡ with_all (each_pair full_base members.now) (view value)) }
{
    let mut whole = value;
    for member in members {
        let base = full_base(alloc, &member.value)?;
        whole = with(alloc, whole, member.key.as_str(), base)?;
    }
    Ok(whole)
}

/// The base addresses of each interface.
#[tactic(auto, unfolding(crate::specs::FullTop::full_bases))]
fn full_bases(alloc: Global, tree: &Tree) -> Result<Value, Memory>
    requires { IsKept tree.now }
    ensures { IfOk result (λ v. view v ≡ full_bases tree.now) }
{
    let value = to_json(alloc, tree)?;
    let value = with_bases(alloc, value, members(tree))?;
    Ok(value)
}

/// A value with the base address of an instance, where it has one.
#[tactic(auto, using(cg_blkdone::proofs::Kept::kept_at, cg_blkdone::proofs::InTurn::with_nothing))]
pub(crate) fn with_base(alloc: Global, value: Value, tree: &Tree) -> Result<Value, Memory>
    requires { IsKept tree.now }
    ensures { IfOk result (λ v. view v ≡ with_all (pair_if (codes "base_addr") (option_map full_base (value_at (codes "base_addr") (members_of tree.now)))) (view value)) }
{
    match value_at(members(tree), "base_addr") {
        Some(base) => Ok(with(alloc, value, "base_addr", full_base(alloc, base)?)?),
        None => Ok(value),
    }
}

/// A value with the base addresses of an instance's interfaces, where it has some.
#[tactic(auto, using(cg_blkdone::proofs::Kept::kept_at, cg_blkdone::proofs::InTurn::with_nothing))]
pub(crate) fn with_each_base(alloc: Global, value: Value, tree: &Tree) -> Result<Value, Memory>
    requires { IsKept tree.now }
    ensures { IfOk result (λ v. view v ≡ with_all (pair_if (codes "base_addrs") (option_map full_bases (value_at (codes "base_addrs") (members_of tree.now)))) (view value)) }
{
    match value_at(members(tree), "base_addrs") {
        Some(bases) => Ok(with(alloc, value, "base_addrs", full_bases(alloc, bases)?)?),
        None => Ok(value),
    }
}
