//! The first rule that the shape and the lists of `registers` break.

ghost use Rattle.std.specs.Prelude.{◌≡◌, ◌&&◌, ◌||◌, [], ◌∷◌, List, IfOk, cond, false, is_some, map, not, ℕ};
ghost use Rattle.std.specs.HashSet.{contains_by};
ghost use Rattle.std.specs.List.{flat_map, list_any};
ghost use Rattle.std.specs.Option.{option_map_or};
ghost use Rattle.std.specs.Str.{bytes_eq};
ghost use Rattle.cg_finding.specs.Finding.{finding, first_of};
ghost use Rattle.cg_finding.specs.Found.{sees};
ghost use Rattle.cg_keys.specs.Table.{value_at};
ghost use Rattle.cg_keys.specs.Values.{array_in, object_in};
ghost use Rattle.cg_blkread.specs.Interfaces.{asks_for_list, devices, has_stray_entries, interface_name, is_entry_less, missing_lists, names_device, shape_faults};

use crate::entry_lists::{EntryList, lists_of};
use crate::interface::interface_name;
use cg_base::Memory;
use cg_desc::At;
use cg_finding::{Found, earlier_of};
use cg_hjson::{Member, Tree};
use cg_keys::{array, object, value_at};
use std::alloc::Global;
use std::collections::HashSet;

/// The names of some interfaces.
fn names_of<'a>(alloc: Global, interfaces: &[&'a Tree]) -> Result<HashSet<&'a str>, Memory>
    ensures { IfOk result (λ names. (name : List ℕ)
        → contains_by (λ k. bytes_eq name k.now) names ≡ names_device (map (λ t. t.now) interfaces.now) name) }
{
    let mut names = HashSet::new(alloc);
    for interface in interfaces {
        let Some(name) = interface_name(interface) else {
            continue;
        };
        names.insert(name)?;
    }
    Ok(names)
}

/// The keys of some members.
fn keys_of(alloc: Global, members: &[Member]) -> Result<HashSet<&str>, Memory>
    ensures { IfOk result (λ keys. (key : List ℕ)
        → contains_by (λ k. bytes_eq key k.now) keys ≡ is_some (value_at key members.now)) }
{
    let mut keys = HashSet::new(alloc);
    for member in members {
        keys.insert(member.key.as_str())?;
    }
    Ok(keys)
}

/// Whether one list of entries is asked for, and not an object of lists.
fn asks_for_list(device_faces: &[&Tree]) -> bool
    ensures { result ≡ asks_for_list (map (λ t. t.now) device_faces.now) }
{
    match device_faces {
        [] => true,
        [device] => interface_name(device).is_none(),
        _ => false,
    }
}

fn is_entry_less(tree: &Tree) -> bool
    ensures { result ≡ is_entry_less tree.now }
{
    match array(tree) {
        Some(items) => items.is_empty(),
        None => true,
    }
}

/// Whether one of the lists has entries, and no interface has its name.
fn has_stray_list(names: &HashSet<&str>, lists: &[EntryList]) -> bool
    ensures { result ≡ list_any (λ l. not (contains_by (λ k. bytes_eq l.key.now k.now) names.now) && not (is_entry_less l.value.now)) lists.now }
{
    lists.iter().any(|list| !names.contains(list.key) && !is_entry_less(list.value))
}

/// Whether `registers` has entries for which there is no device interface.
fn has_stray_entries(alloc: Global, device_faces: &[&Tree], tree: &Tree) -> Result<bool, Memory>
    ensures { IfOk result (λ stray. stray ≡ has_stray_entries (map (λ t. t.now) device_faces.now) tree.now (object_in tree.now)) }
{
    match object(tree) {
        Some(members) => {
            let lists = lists_of(alloc, members)?;
            let names = names_of(alloc, device_faces)?;
            Ok(has_stray_list(&names, lists.as_slice()))
        }
        None => Ok(!is_entry_less(tree) && device_faces.is_empty()),
    }
}

/// Whether `registers` is a list where an object is asked for, or an object where a list is.
fn has_wrong_shape(device_faces: &[&Tree], tree: &Tree) -> bool
    ensures { result ≡ ((is_some (array_in tree.now) && not (asks_for_list (map (λ t. t.now) device_faces.now)))
        || (is_some (object_in tree.now) && asks_for_list (map (λ t. t.now) device_faces.now))) }
{
    let asks_for_list = asks_for_list(device_faces);
    (array(tree).is_some() && !asks_for_list) || (object(tree).is_some() && asks_for_list)
}

/// A shape of `registers` other than its interfaces ask for, or entries without an interface.
#[tactic(auto, unfolding(crate::specs::Interfaces::shape_faults), using(cg_finding::proofs::Firsts::firsts, crate::proofs::NameSets::or_assoc))]
pub(crate) fn first_in_shape(
    alloc: Global,
    block: &[Member],
    device_faces: &[&Tree],
) -> Result<Option<Found<'static>>, Memory>
    requires { map (λ t. t.now) device_faces.now ≡ devices block.now }
    ensures { IfOk result (λ found. sees found ≡ first_of (shape_faults block.now)) }
{
    let Some(tree) = value_at(block, "registers") else {
        return Ok(None);
    };
    let has_wrong_shape = has_wrong_shape(device_faces, tree);
    let has_stray_entries = has_stray_entries(alloc, device_faces, tree)?;
    if has_wrong_shape || has_stray_entries {
        Ok(Some(Found::wrong_kind(tree.at, "registers")))
    } else {
        Ok(None)
    }
}

/// Rule 21 at an object without the list of this interface, where it has a name.
#[tactic(auto, using(cg_finding::proofs::Firsts::firsts))]
fn missing_list<'a>(opener: At, keys: &HashSet<&str>, interface: &'a Tree) -> Option<Found<'a>>
    ensures { sees result ≡ first_of (option_map_or (λ n. cond (contains_by (λ k. bytes_eq n k.now) keys.now) [] (finding 2 21 opener n ∷ [])) (interface_name interface.now) []) }
{
    let name = interface_name(interface)?;
    if keys.contains(name) {
        None
    } else {
        Some(Found::missing_key(opener, name))
    }
}

#[tactic(auto, using(cg_finding::proofs::Firsts::firsts))]
fn first_missing<'a>(
    opener: At,
    keys: &HashSet<&str>,
    device_faces: &[&'a Tree],
) -> Option<Found<'a>>
    ensures { sees result ≡ first_of (flat_map (λ t. option_map_or (λ n. cond (contains_by (λ k. bytes_eq n k.now) keys.now) [] (finding 2 21 opener n ∷ [])) (interface_name t) []) (map (λ t. t.now) device_faces.now)) }
{
    let mut first = None;
    for device in device_faces {
        first = earlier_of(first, missing_list(opener, keys, device));
    }
    first
}

/// The first list that `registers` is to have for a named device interface, and has not.
#[tactic(auto, unfolding(crate::specs::Interfaces::missing_lists), using(cg_finding::proofs::Firsts::firsts))]
pub(crate) fn first_missing_list<'a>(
    alloc: Global,
    block: &[Member],
    device_faces: &[&'a Tree],
) -> Result<Option<Found<'a>>, Memory>
    requires { map (λ t. t.now) device_faces.now ≡ devices block.now }
    ensures { IfOk result (λ found. sees found ≡ first_of (missing_lists block.now)) }
{
    let Some(tree) = value_at(block, "registers") else {
        return Ok(None);
    };
    let Some(lists) = object(tree) else {
        return Ok(None);
    };
    let keys = keys_of(alloc, lists)?;
    Ok(first_missing(tree.at, &keys, device_faces))
}
