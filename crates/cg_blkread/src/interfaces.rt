//! The first rule that the names of the interfaces together break, or the shape and the lists of `registers`.

ghost use Rattle.std.specs.Prelude.{◌≡◌, ◌++◌, [], ◌∷◌, IfOk, codes, cond, false, is_some, length, map, nat_lt};
ghost use Rattle.std.specs.List.{flat_map, list_all};
ghost use Rattle.std.specs.Option.{option_map_or};
ghost use Rattle.cg_finding.specs.Finding.{finding, first_of};
ghost use Rattle.cg_finding.specs.Found.{sees};
ghost use Rattle.cg_keys.specs.Values.{array_in};
ghost use Rattle.cg_blkread.specs.Interfaces.{at_value, devices, equal_names, has_same_names, hosts, interface_faults, interface_name, interfaces_are_good, is_good_interface, many_devices, missing_lists, nameless_devices, shape_faults};

use crate::interface::{interface_name, is_device, is_host};
use crate::shape::{first_in_shape, first_missing_list};
use cg_base::Memory;
use cg_finding::{Found, earlier_of};
use cg_hjson::{Member, Tree};
use cg_keys::{Form, Words, array, elements, is_fit_at, members, object, value_at};
use std::alloc::Global;
use std::collections::HashSet;

/// The device interfaces of a block.
#[tactic(auto, unfolding(crate::specs::Interfaces::devices, crate::specs::Interfaces::interfaces))]
fn devices(alloc: Global, block: &[Member]) -> Result<Vec<&Tree>, Memory>
    ensures { IfOk result (λ found. map (λ t. t.now) found.items ≡ devices block.now) }
{
    let mut found = Vec::new(alloc);
    for interface in elements(block, "bus_interfaces") {
        if !is_device(interface) {
            continue;
        }
        found.push(interface)?;
    }
    Ok(found)
}

/// The host interfaces of a block.
#[tactic(auto, unfolding(crate::specs::Interfaces::hosts, crate::specs::Interfaces::interfaces))]
fn hosts(alloc: Global, block: &[Member]) -> Result<Vec<&Tree>, Memory>
    ensures { IfOk result (λ found. map (λ t. t.now) found.items ≡ hosts block.now) }
{
    let mut found = Vec::new(alloc);
    for interface in elements(block, "bus_interfaces") {
        if !is_host(interface) {
            continue;
        }
        found.push(interface)?;
    }
    Ok(found)
}

/// Whether an interface has a direction, and direction and name have their forms.
#[tactic(auto, unfolding(crate::specs::Interfaces::is_good_interface))]
fn is_good_interface(tree: &Tree) -> bool
    ensures { result ≡ is_good_interface tree.now }
{
    object(tree).is_some()
        && value_at(members(tree), "direction").is_some()
        && is_fit_at(&[Form::Word(Words::Direction)], members(tree), "direction")
        && is_fit_at(&[Form::Name], members(tree), "name")
}

fn are_good(items: &[Tree]) -> bool
    ensures { result ≡ list_all is_good_interface items.now }
{
    items.iter().all(|item| is_good_interface(item))
}

fn is_good_list(tree: &Tree) -> bool
    ensures { result ≡ option_map_or (list_all is_good_interface) (array_in tree.now) false }
{
    match array(tree) {
        Some(items) => are_good(items),
        None => false,
    }
}

/// Whether the interfaces are a list of good ones. Where not, no more is asked of them together.
#[tactic(auto, unfolding(crate::specs::Interfaces::interfaces_are_good))]
fn interfaces_are_good(block: &[Member]) -> bool
    ensures { result ≡ interfaces_are_good block.now }
{
    match value_at(block, "bus_interfaces") {
        Some(tree) => is_good_list(tree),
        None => false,
    }
}

/// Rule 22 at the value of a key.
#[tactic(auto, using(cg_finding::proofs::Firsts::firsts))]
fn wrong_at<'a>(block: &[Member], key: &'a str) -> Option<Found<'a>>
    ensures { sees result ≡ first_of (at_value key.now block.now (λ at. finding 2 22 at key.now ∷ [])) }
{
    let tree = value_at(block, key)?;
    Some(Found::wrong_kind(tree.at, key))
}

/// Whether there are more interfaces than so many.
fn are_more(most: usize, interfaces: &[&Tree]) -> bool
    ensures { result ≡ nat_lt most (length (map (λ t. t.now) interfaces.now)) }
{
    interfaces.len() > most
}

/// More than eight device interfaces.
#[tactic(auto, unfolding(crate::specs::Interfaces::many_devices), using(cg_finding::proofs::Firsts::firsts))]
fn many_devices(block: &[Member], device_faces: &[&Tree]) -> Option<Found<'static>>
    requires { map (λ t. t.now) device_faces.now ≡ devices block.now }
    ensures { sees result ≡ first_of (many_devices block.now) }
{
    if are_more(8, device_faces) {
        wrong_at(block, "bus_interfaces")
    } else {
        None
    }
}

/// Rule 21 at an interface without a name.
#[tactic(auto, using(cg_finding::proofs::Firsts::firsts))]
fn nameless(interface: &Tree) -> Option<Found<'static>>
    ensures { sees result ≡ first_of (cond (is_some (interface_name interface.now)) [] (finding 2 21 interface.now.at (codes "name") ∷ [])) }
{
    if interface_name(interface).is_some() {
        None
    } else {
        Some(Found::missing_key(interface.at, "name"))
    }
}

#[tactic(auto, using(cg_finding::proofs::Firsts::firsts))]
fn first_nameless(device_faces: &[&Tree]) -> Option<Found<'static>>
    ensures { sees result ≡ first_of (flat_map (λ t. cond (is_some (interface_name t)) [] (finding 2 21 t.at (codes "name") ∷ [])) (map (λ t. t.now) device_faces.now)) }
{
    let mut first = None;
    for device in device_faces {
        first = earlier_of(first, nameless(device));
    }
    first
}

/// The first of several device interfaces that has no name.
#[tactic(auto, unfolding(crate::specs::Interfaces::nameless_devices), using(cg_finding::proofs::Firsts::firsts))]
fn nameless_devices(block: &[Member], device_faces: &[&Tree]) -> Option<Found<'static>>
    requires { map (λ t. t.now) device_faces.now ≡ devices block.now }
    ensures { sees result ≡ first_of (nameless_devices block.now) }
{
    if are_more(1, device_faces) {
        first_nameless(device_faces)
    } else {
        None
    }
}

/// Whether two of the interfaces have one name, or none. Each name is looked up once.
fn has_same_names(alloc: Global, interfaces: &[&Tree]) -> Result<bool, Memory>
    ensures { IfOk result (λ same. same ≡ has_same_names (map (λ t. t.now) interfaces.now)) }
{
    let mut seen = HashSet::new(alloc);
    let mut has_nameless = false;
    for interface in interfaces {
        let Some(name) = interface_name(interface) else {
            if has_nameless {
                return Ok(true);
            }
            has_nameless = true;
            continue;
        };
        if !seen.insert(name)? {
            return Ok(true);
        }
    }
    Ok(false)
}

/// Two interfaces of one direction that have one name, or none.
#[tactic(auto, unfolding(crate::specs::Interfaces::equal_names), using(cg_finding::proofs::Firsts::firsts))]
fn equal_names(
    alloc: Global,
    block: &[Member],
    device_faces: &[&Tree],
) -> Result<Option<Found<'static>>, Memory>
    requires { map (λ t. t.now) device_faces.now ≡ devices block.now }
    ensures { IfOk result (λ found. sees found ≡ first_of (equal_names block.now)) }
{
    let hosts = hosts(alloc, block)?;
    let same_devices = has_same_names(alloc, device_faces)?;
    let same_hosts = has_same_names(alloc, hosts.as_slice())?;
    if same_devices || same_hosts {
        Ok(wrong_at(block, "bus_interfaces"))
    } else {
        Ok(None)
    }
}

/// What good interfaces break together, and what is asked of `registers` for them.
#[tactic(auto, using(cg_finding::proofs::Firsts::firsts))]
fn first_together<'a>(
    alloc: Global,
    block: &[Member],
    device_faces: &[&'a Tree],
) -> Result<Option<Found<'a>>, Memory>
    requires { map (λ t. t.now) device_faces.now ≡ devices block.now }
    ensures { IfOk result (λ found. sees found ≡ first_of (nameless_devices block.now ++ (equal_names block.now ++ (shape_faults block.now ++ missing_lists block.now)))) }
{
    let nameless = nameless_devices(block, device_faces);
    let equal = equal_names(alloc, block, device_faces)?;
    let shape = first_in_shape(alloc, block, device_faces)?;
    let missing = first_missing_list(alloc, block, device_faces)?;
    Ok(earlier_of(nameless, earlier_of(equal, earlier_of(shape, missing))))
}

/// The first rule that the names of the interfaces together break, or the shape and the lists of `registers`.
#[tactic(auto, unfolding(crate::specs::Interfaces::interface_faults), using(cg_finding::proofs::Firsts::firsts))]
pub(crate) fn first_in_interfaces(
    alloc: Global,
    block: &[Member],
) -> Result<Option<Found<'_>>, Memory>
    ensures { IfOk result (λ found. sees found ≡ first_of (interface_faults block.now)) }
{
    let devices = devices(alloc, block)?;
    let devices = devices.as_slice();
    let many = many_devices(block, devices);
    if interfaces_are_good(block) {
        let together = first_together(alloc, block, devices)?;
        Ok(earlier_of(many, together))
    } else {
        Ok(many)
    }
}
