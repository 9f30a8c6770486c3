//! The types of instances, each where it is first used.

ghost use Rattle.std.specs.Prelude.{◌≡◌, [], IfOk, List, codes, length, map, option_map, ℕ};
ghost use Rattle.std.specs.Option.{option_map_or};
ghost use Rattle.cg_desc.specs.Top.{AreTypes};
ghost use Rattle.cg_desc.specs.declared.top.InstDesc.{InstDesc as Instance};
ghost use Rattle.cg_finding.specs.Finding.{first_of};
ghost use Rattle.cg_finding.specs.Found.{sees};
ghost use Rattle.cg_keys.specs.Table.{value_at};
ghost use Rattle.cg_nodes.specs.Listed.{new_names};
ghost use Rattle.cg_topread.specs.Listed.{list_types_faults, types_faults};
ghost use Rattle.cg_topread.specs.Types.{type_count, type_in, types_in, types_of};

use cg_base::{List, Memory, Text};
use cg_desc::{InstDesc, TopDesc};
use cg_finding::Found;
use cg_hjson::{Member, Tree};
use cg_keys::{is_name, items, members, text_at, value_at};
use indexmap::IndexSet;
use std::alloc::Global;

/// The most characters of a name.
const MOST: usize = 40;

/// The type of an instance, where it is a name.
#[tactic(auto, unfolding(crate::specs::Types::type_in))]
fn type_in(instance: &Tree) -> Option<&str>
    ensures { option_map (λ kind. kind.now) result ≡ type_in instance.now }
{
    let kind = text_at(members(instance), "type")?;
    if is_name(MOST, kind) {
        Some(kind)
    } else {
        None
    }
}

fn types_in<'a>(alloc: Global, instances: &'a [Tree]) -> Result<IndexSet<&'a str>, Memory>
    ensures { IfOk result (λ types. map (λ k. k.now) types.keys ≡ new_names [] (types_in instances.now)) }
{
    let mut types = IndexSet::new(alloc);
    for instance in instances {
        if let Some(kind) = type_in(instance) {
            types.insert(kind)?;
        }
    }
    Ok(types)
}

/// How many types instances have.
#[tactic(auto, unfolding(crate::specs::Types::type_count))]
fn type_count(alloc: Global, instances: &[Tree]) -> Result<usize, Memory>
    ensures { IfOk result (λ count. count ≡ type_count instances.now) }
{
    Ok(types_in(alloc, instances)?.len())
}

#[tactic(auto, unfolding(crate::specs::Listed::list_types_faults), using(cg_finding::proofs::Firsts::firsts))]
fn first_in_list_types(alloc: Global, list: &Tree) -> Result<Option<Found<'static>>, Memory>
    ensures { IfOk result (λ found. sees found ≡ first_of (list_types_faults list.now)) }
{
    if type_count(alloc, items(list))? <= 64 {
        Ok(None)
    } else {
        Ok(Some(Found::wrong_kind(list.at, "module")))
    }
}

/// Rule 22 at the list of instances, where they have more than 64 types.
#[tactic(auto, unfolding(crate::specs::Listed::types_faults), using(cg_finding::proofs::Firsts::firsts))]
pub(crate) fn first_in_types(
    alloc: Global,
    top: &[Member],
) -> Result<Option<Found<'static>>, Memory>
    ensures { IfOk result (λ found. sees found ≡ first_of (types_faults top.now)) }
{
    match value_at(top, "module") {
        Some(list) => Ok(first_in_list_types(alloc, list)?),
        None => Ok(None),
    }
}

/// The names of a set, in its order.
fn texts_of(alloc: Global, names: &[&str]) -> Result<List<Text>, Memory>
    ensures { IfOk result (λ texts. texts ≡ map (λ n. n.now) names.now) }
{
    let mut texts = List::new(alloc);
    for name in names {
        texts.push(Text::of(alloc, name)?)?;
    }
    Ok(texts)
}

fn listed_types(alloc: Global, insts: &[InstDesc]) -> Result<List<Text>, Memory>
    ensures { IfOk result (λ types. types ≡ types_of insts.now) }
{
    let mut used = IndexSet::new(alloc);
    for inst in insts {
        used.insert(inst.kind.as_str())?;
    }
    Ok(texts_of(alloc, used.as_slice())?)
}

/// The types of a top's instances, each where it is first used: the order in which the files of a top's blocks are taken.
pub fn types_of(alloc: Global, top: &TopDesc) -> Result<List<Text>, Memory>
    ensures types { IfOk result (λ types. AreTypes top.now.insts types) }
    ensures listed { IfOk result (λ types. types ≡ types_of top.now.insts) }
{
    Ok(listed_types(alloc, top.insts.as_slice())?)
}

/// The types of instances, in the order of their first use, are one list.
#[tactic(auto, using(crate::proofs::TypesOnce::types_listed, crate::proofs::TypesOnce::types_one))]
pub fn types_are_one()
    ensures listed { (insts : List Instance) → AreTypes insts (types_of insts) }
    ensures one { (insts : List Instance) (types : List (List ℕ)) → AreTypes insts types → types ≡ types_of insts }
{}
