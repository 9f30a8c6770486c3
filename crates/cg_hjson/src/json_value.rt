//! Trees as JSON values.

ghost use Rattle.std.specs.Prelude.{◌≡◌, ℕ, List, Some, IfOk, option_map};
ghost use Rattle.std.specs.List.{IsDistinct};
ghost use Rattle.std.specs.Str.{bytes_eq};
ghost use Rattle.serde_json.specs.Data.{number};
ghost use Rattle.serde_json.specs.Find.{get, of_integer};
ghost use Rattle.serde_json.specs.View.{items_view, members_view, view};
ghost use Rattle.cg_docspec.specs.Place.{Place};
ghost use Rattle.cg_docspec.specs.Tree.{Member as DocumentMember, members, object_of, trees};
ghost use Rattle.cg_hjson.specs.Integers.{in_range};
ghost use Rattle.cg_hjson.specs.Json.{HasKeysOnce, HasRange, InMembers, InTrees, IntegersFit, KeysDiffer, json_items, json_members, json_of, keys, value_at};
ghost use Rattle.cg_hjson.specs.Views.{members_of, tree_of, trees_of};

use crate::tree::{Kind, Member, Tree};
use cg_base::Memory;
use serde_json::{Map, Number, Value};
use std::alloc::Global;
use std::collections::BTreeMap;

/// The JSON value that a tree says: its keys and values without their places. Lists keep their
/// order, and an object's members stand in the order of their keys' bytes.
///
/// No object of the tree has a key twice, and each integer is from -2^63 to 2^64 - 1, as those of
/// a tree that was read are. It goes as deep as the tree, which `read` keeps to 64 levels.
#[cycle(making)]
#[tactic(auto, using(crate::proofs::Views::views, crate::proofs::Views::parts), unfolding(crate::specs::Json::json_of, crate::specs::Json::json_kind, crate::specs::Json::Everywhere, crate::specs::Json::WithinKind))]
pub fn to_json(alloc: Global, tree: &Tree) -> Result<Value, Memory>
    requires keys { KeysDiffer (tree_of tree.now) }
    requires integers { IntegersFit (tree_of tree.now) }
    ensures { IfOk result (λ value. view value ≡ json_of (tree_of tree.now)) }
{
    match &tree.kind {
        Kind::Null => Ok(Value::from(())),
        Kind::Bool(b) => Ok(Value::from(*b)),
        Kind::Int(n) => Ok(integer(*n)),
        Kind::Str(text) => Ok(Value::try_from_str(alloc, text.as_str())?),
        Kind::Array(items) => Ok(Value::from(json_list(alloc, items.as_slice())?)),
        Kind::Object(members) => Ok(Value::from(json_map(alloc, members.as_slice())?)),
    }
}

/// An object's JSON value has just the object's members: at each key it has the value of the first
/// member with that key, and nothing where there is none.
pub fn members_are_kept()
    ensures { (ms : List DocumentMember) (at : Place) (key : List ℕ)
        → get key (json_of (object_of ms at)) ≡ option_map json_of (value_at key ms) }
{}

/// The number of an integer.
fn integer(n: i128) -> Value
    requires { in_range n ≡ Some n }
    ensures { view result ≡ number (of_integer n) }
{
    match Number::from_i128(n) {
        Some(number) => Value::from(number),
        None => unreachable!(),
    }
}

/// The values of a list's trees, in order.
#[cycle(making)]
fn json_list(alloc: Global, items: &[Tree]) -> Result<Vec<Value>, Memory>
    requires keys { InTrees HasKeysOnce (trees (trees_of items.now)) }
    requires integers { InTrees HasRange (trees (trees_of items.now)) }
    ensures { IfOk result (λ list. items_view list.items ≡ json_items (trees (trees_of items.now))) }
{
    let mut list = Vec::new(alloc);
    for item in items {
        let value = to_json(alloc, item)?;
        list.push(value)?;
    }
    Ok(list)
}

/// The values of an object's members by their keys.
#[cycle(making)]
fn json_map(alloc: Global, fields: &[Member]) -> Result<Map<String, Value>, Memory>
    requires once { IsDistinct bytes_eq (keys (members (members_of fields.now))) }
    requires keys { InMembers HasKeysOnce (members (members_of fields.now)) }
    requires integers { InMembers HasRange (members (members_of fields.now)) }
    ensures { IfOk result (λ map. members_view map.entries
        ≡ json_members (members (members_of fields.now))) }
{
    let mut map = BTreeMap::new(alloc);
    for member in fields {
        let value = to_json(alloc, &member.value)?;
        serde_json::put(&mut map, alloc, member.key.as_str(), value)?;
    }
    Ok(map)
}
