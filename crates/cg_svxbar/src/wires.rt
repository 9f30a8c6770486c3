//! The links between the parts of a crossbar.

ghost use Rattle.std.specs.Prelude.{◌≡◌, ◌++◌, OnOk, map, flat_map};
ghost use Rattle.cg_busspec.specs.Crossbar.{reach, hosts, devices};
ghost use Rattle.cg_busspec.specs.CrossbarModule.{link_wires, host_wires, lane_wires, host_lanes, device_wires, crossbar_wires};
ghost use Rattle.cg_sv.specs.Views.{entry_of};
ghost use Rattle.cg_svxbar.specs.Viewed.{link_of};

use crate::links::{Link, node_link, pair_link};
use crate::nodes::{devices, has_fifo, hosts, is_joined, reach};
use cg_base::{List, Memory};
use cg_desc::XbarDesc;
use cg_sv::{Entry, make};
use std::alloc::Global;

/// Adds the wires of a link.
pub fn add_link(alloc: Global, entries: &mut List<Entry>, link: &Link) -> Result<(), Memory>
    ensures { OnOk result (map entry_of entries.new ≡ map entry_of entries.old ++ link_wires (link_of link.now)) }
{
    make::wire(alloc, entries, 70, link.request.as_str())?;
    make::wire(alloc, entries, 33, link.response.as_str())?;
    Ok(())
}

/// Adds the link behind a host's FIFO, if it has one.
fn add_host_wires(
    alloc: Global,
    entries: &mut List<Entry>,
    xbar: &XbarDesc,
    host: usize,
) -> Result<(), Memory>
    ensures { OnOk result (map entry_of entries.new ≡ map entry_of entries.old ++ host_wires xbar.now host) }
{
    if has_fifo(xbar, host) {
        let link = node_link(alloc, "f_", xbar, host)?;
        add_link(alloc, entries, &link)?;
    }
    Ok(())
}

/// Adds those of all hosts.
fn add_hosts_wires(alloc: Global, entries: &mut List<Entry>, xbar: &XbarDesc) -> Result<(), Memory>
    ensures { OnOk result (map entry_of entries.new ≡ map entry_of entries.old ++ flat_map (host_wires xbar.now) (hosts xbar.now)) }
{
    let hosts = hosts(alloc, xbar)?;
    for host in hosts.iter() {
        add_host_wires(alloc, entries, xbar, *host)?;
    }
    Ok(())
}

/// Adds the link from a host to a device, where the device has an M-to-1 socket.
fn add_lane(
    alloc: Global,
    entries: &mut List<Entry>,
    xbar: &XbarDesc,
    host: usize,
    device: usize,
) -> Result<(), Memory>
    ensures { OnOk result (map entry_of entries.new ≡ map entry_of entries.old ++ lane_wires xbar.now host device) }
{
    if is_joined(alloc, xbar, device)? {
        let link = pair_link(alloc, xbar, host, device)?;
        add_link(alloc, entries, &link)?;
    }
    Ok(())
}

/// Adds those from a host to each of its devices.
fn add_host_lanes(
    alloc: Global,
    entries: &mut List<Entry>,
    xbar: &XbarDesc,
    host: usize,
) -> Result<(), Memory>
    ensures { OnOk result (map entry_of entries.new ≡ map entry_of entries.old ++ host_lanes xbar.now host) }
{
    for device in reach(xbar, host) {
        add_lane(alloc, entries, xbar, host, *device as usize)?;
    }
    Ok(())
}

/// Adds those of all hosts.
fn add_hosts_lanes(alloc: Global, entries: &mut List<Entry>, xbar: &XbarDesc) -> Result<(), Memory>
    ensures { OnOk result (map entry_of entries.new ≡ map entry_of entries.old ++ flat_map (host_lanes xbar.now) (hosts xbar.now)) }
{
    let hosts = hosts(alloc, xbar)?;
    for host in hosts.iter() {
        add_host_lanes(alloc, entries, xbar, *host)?;
    }
    Ok(())
}

/// Adds the link before a device's FIFO, if it has one.
fn add_device_wires(
    alloc: Global,
    entries: &mut List<Entry>,
    xbar: &XbarDesc,
    device: usize,
) -> Result<(), Memory>
    ensures { OnOk result (map entry_of entries.new ≡ map entry_of entries.old ++ device_wires xbar.now device) }
{
    if has_fifo(xbar, device) {
        let link = node_link(alloc, "m_", xbar, device)?;
        add_link(alloc, entries, &link)?;
    }
    Ok(())
}

/// Adds those of all devices.
fn add_devices_wires(
    alloc: Global,
    entries: &mut List<Entry>,
    xbar: &XbarDesc,
) -> Result<(), Memory>
    ensures { OnOk result (map entry_of entries.new ≡ map entry_of entries.old ++ flat_map (device_wires xbar.now) (devices xbar.now)) }
{
    let devices = devices(alloc, xbar)?;
    for device in devices.iter() {
        add_device_wires(alloc, entries, xbar, *device)?;
    }
    Ok(())
}

/// Adds all links between parts.
pub fn add_wires(alloc: Global, entries: &mut List<Entry>, xbar: &XbarDesc) -> Result<(), Memory>
    ensures { OnOk result (map entry_of entries.new ≡ map entry_of entries.old ++ crossbar_wires xbar.now) }
{
    add_hosts_wires(alloc, entries, xbar)?;
    add_hosts_lanes(alloc, entries, xbar)?;
    add_devices_wires(alloc, entries, xbar)?;
    Ok(())
}
