//! Values with parts of their own put in place.

ghost use Rattle.std.specs.Prelude.{◌≡◌, [], ◌∷◌, IfOk, option_map, unwrap_or};
ghost use Rattle.serde_json.specs.View.{view};
ghost use Rattle.cg_keys.specs.Lookups.{number_at};
ghost use Rattle.cg_blkread.specs.Raw.{number_or_zero};
ghost use Rattle.cg_blkdone.specs.Full.{number_if, number_of, pair, pair_if, said_with, with_all};
ghost use Rattle.cg_blkdone.specs.Parts.{IsKept};

use crate::plain::number;
use cg_base::Memory;
use cg_hjson::{Member, Tree, to_json};
use cg_keys::{number_at, number_within};
use serde_json::Value;
use std::alloc::Global;

/// A value with a part at a key, where it is an object.
#[tactic(auto, unfolding(crate::specs::Full::with_all))]
pub fn with(alloc: Global, value: Value, key: &str, part: Value) -> Result<Value, Memory>
    ensures { IfOk result (λ v. view v ≡ with_all (pair key.now (view part) ∷ []) (view value)) }
{
    match value {
        Value::Object(mut map) => {
            serde_json::put(&mut map, alloc, key, part)?;
            Ok(Value::from(map))
        }
        other => Ok(other),
    }
}

/// A value with a number at a key, if there is one.
#[tactic(auto, using(crate::proofs::InTurn::with_nothing))]
pub(crate) fn with_number_if(
    alloc: Global,
    value: Value,
    key: &str,
    count: Option<u32>,
) -> Result<Value, Memory>
    ensures { IfOk result (λ v. view v ≡ with_all (pair_if key.now (option_map number_of count)) (view value)) }
{
    match count {
        Some(count) => Ok(with(alloc, value, key, number(count))?),
        None => Ok(value),
    }
}

/// What a tree says, with a part at a key.
pub fn said_with(alloc: Global, tree: &Tree, key: &str, part: Value) -> Result<Value, Memory>
    requires { IsKept tree.now }
    ensures { IfOk result (λ v. view v ≡ said_with (pair key.now (view part) ∷ []) tree.now) }
{
    let value = to_json(alloc, tree)?;
    let value = with(alloc, value, key, part)?;
    Ok(value)
}

fn word_at(members: &[Member], key: &str) -> Option<u32>
    ensures { result ≡ number_at 0 4294967295 key.now members.now }
{
    let number = number_at(0, u64::from(u32::MAX), members, key)?;
    Some(number as u32)
}

/// A value with the number that these members have at a key, if it is one.
pub(crate) fn with_word(
    alloc: Global,
    value: Value,
    members: &[Member],
    key: &str,
) -> Result<Value, Memory>
    ensures { IfOk result (λ v. view v ≡ with_all (number_if key.now members.now) (view value)) }
{
    let value = with_number_if(alloc, value, key, word_at(members, key))?;
    Ok(value)
}

/// The number that these members have at a key, or else another.
pub(crate) fn word_or(members: &[Member], key: &str, otherwise: u32) -> Value
    ensures { view result ≡ number_of (unwrap_or (number_at 0 4294967295 key.now members.now) otherwise) }
{
    number(word_at(members, key).unwrap_or(otherwise))
}

/// The number that a value is, or else 0.
pub fn number_or_zero(tree: &Tree) -> Value
    ensures { view result ≡ number_of (number_or_zero tree.now) }
{
    match number_within(0, u64::from(u32::MAX), tree) {
        Some(value) => number(value as u32),
        None => number(0),
    }
}
