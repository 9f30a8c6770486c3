//! Values that are there or by default.

ghost use Rattle.std.specs.Prelude.{◌≡◌, IfOk};
ghost use Rattle.serde_json.specs.View.{view};
ghost use Rattle.cg_keys.specs.Table.{value_at};
ghost use Rattle.cg_keys.specs.Values.{members_of};
ghost use Rattle.cg_blkdone.specs.Parts.{IsKept};
ghost use Rattle.cg_done.specs.FullTop.{no_ports, one_space, value_or};

use cg_base::Memory;
use cg_blkdone::text;
use cg_hjson::{Tree, to_json};
use cg_keys::{members, value_at};
use serde_json::{Map, Value};
use std::alloc::Global;

/// What a tree has at a key, or else another value.
#[tactic(auto, using(cg_blkdone::proofs::Kept::kept_at))]
pub(crate) fn said_or(
    alloc: Global,
    tree: &Tree,
    key: &str,
    otherwise: Value,
) -> Result<Value, Memory>
    requires { IsKept tree.now }
    ensures { IfOk result (λ v. view v ≡ value_or (view otherwise) (value_at key.now (members_of tree.now))) }
{
    match value_at(members(tree), key) {
        Some(value) => Ok(to_json(alloc, value)?),
        None => Ok(otherwise),
    }
}

/// An object of no ports.
pub(crate) fn no_ports(alloc: Global) -> Value
    ensures { view result ≡ no_ports }
{
    Value::from(Map::new(alloc))
}

/// The list of the one address space that there is where none is listed.
pub(crate) fn one_space(alloc: Global) -> Result<Value, Memory>
    ensures { IfOk result (λ v. view v ≡ one_space) }
{
    let mut space = Map::new(alloc);
    serde_json::put(&mut space, alloc, "name", text(alloc, "hart")?)?;
    let mut list = Vec::new(alloc);
    list.push(Value::from(space))?;
    Ok(Value::from(list))
}
