//! The descriptions of a block's interfaces.

ghost use Rattle.std.specs.Prelude.{◌≡◌, IfOk, map, option_map};
ghost use Rattle.std.specs.Option.{option_map_or};
ghost use Rattle.cg_blkread.specs.Described.{entries_in, entry_list_of, face_desc, written_entry};
ghost use Rattle.cg_blkread.specs.Interfaces.{devices, hosts, interface_name, interfaces};
ghost use Rattle.cg_blkread.specs.Raw.{parameters as parameters_of, raw_entry};

use crate::described_entries::describe_entry;
use crate::interface::{interface_name, is_device, is_host};
use crate::parameters::Parameters;
use crate::read_entries::{copy_of, read_entry};
use cg_base::{List, Memory};
use cg_desc::{At, FaceDesc, HostFace, Written};
use cg_hjson::{Member, Tree};
use cg_keys::{elements, items, object, value_at};
use std::alloc::Global;

/// The list of an interface's entries: `registers` itself, or its member of the interface's name.
#[tactic(auto, unfolding(crate::specs::Described::entry_list_of))]
fn entry_list_of<'a>(block: &'a [Member], device: &Tree) -> Option<&'a Tree>
    ensures { option_map (λ list. list.now) result ≡ entry_list_of block.now device.now }
{
    let registers = value_at(block, "registers")?;
    match object(registers) {
        Some(lists) => value_at(lists, interface_name(device)?),
        None => Some(registers),
    }
}

fn describe_list(
    alloc: Global,
    parameters: &Parameters,
    items: &[Tree],
) -> Result<List<Written>, Memory>
    ensures { IfOk result (λ entries. entries ≡ map (λ e. written_entry (raw_entry parameters.now e)) items.now) }
{
    let mut entries = List::new(alloc);
    for item in items {
        let entry = read_entry(alloc, parameters, item)?;
        entries.push(describe_entry(entry)?)?;
    }
    Ok(entries)
}

fn describe_entries(
    alloc: Global,
    parameters: &Parameters,
    list: Option<&Tree>,
) -> Result<List<Written>, Memory>
    ensures { IfOk result (λ entries. entries ≡ entries_in parameters.now (option_map (λ t. t.now) list.entry)) }
{
    match list {
        Some(list) => Ok(describe_list(alloc, parameters, items(list))?),
        None => Ok(List::new(alloc)),
    }
}

fn place_of(list: Option<&Tree>, otherwise: At) -> At
    ensures { result ≡ option_map_or (λ t. t.at) (option_map (λ t. t.now) list.entry) otherwise }
{
    match list {
        Some(list) => list.at,
        None => otherwise,
    }
}

/// The description of a device interface of the block with these members and parameters.
#[tactic(auto, unfolding(crate::specs::Described::face_desc))]
fn describe_device(
    alloc: Global,
    parameters: &Parameters,
    block: &[Member],
    device: &Tree,
) -> Result<FaceDesc, Memory>
    requires { parameters.now ≡ parameters_of block.now }
    ensures { IfOk result (λ face. face ≡ face_desc block.now device.now) }
{
    let list = entry_list_of(block, device);
    let entries = describe_entries(alloc, parameters, list)?;
    let name = copy_of(alloc, interface_name(device))?;
    Ok(FaceDesc {
        name,
        entries,
        at: place_of(list, device.at),
    })
}

/// The device interfaces of a block, with their entries.
pub(crate) fn describe_devices(
    alloc: Global,
    parameters: &Parameters,
    block: &[Member],
) -> Result<List<FaceDesc>, Memory>
    requires { parameters.now ≡ parameters_of block.now }
    ensures { IfOk result (λ faces. faces ≡ map (face_desc block.now) (devices block.now)) }
{
    let mut faces = List::new(alloc);
    for interface in elements(block, "bus_interfaces") {
        if !is_device(interface) {
            continue;
        }
        faces.push(describe_device(alloc, parameters, block, interface)?)?;
    }
    Ok(faces)
}

fn describe_host(alloc: Global, host: &Tree) -> Result<HostFace, Memory>
    ensures { IfOk result (λ described. described ≡ record { name = interface_name host.now }) }
{
    let name = copy_of(alloc, interface_name(host))?;
    Ok(HostFace { name })
}

/// The host interfaces of a block.
pub(crate) fn describe_hosts(alloc: Global, block: &[Member]) -> Result<List<HostFace>, Memory>
    ensures { IfOk result (λ faces. faces ≡ map (λ h. record { name = interface_name h }) (hosts block.now)) }
{
    let mut faces = List::new(alloc);
    for interface in elements(block, "bus_interfaces") {
        if !is_host(interface) {
            continue;
        }
        faces.push(describe_host(alloc, interface)?)?;
    }
    Ok(faces)
}
