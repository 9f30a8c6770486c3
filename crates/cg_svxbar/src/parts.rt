//! The parts that stand at the nodes of a crossbar.

ghost use Rattle.std.specs.Prelude.{◌≡◌, ◌++◌, [], ◌∷◌, IfOk, OnOk, map};
ghost use Rattle.cg_busspec.specs.Crossbar.{reach, feeders};
ghost use Rattle.cg_busspec.specs.CrossbarModule.{lane, join_lanes, host_fifo_entry, host_split_entry, device_join_entry, device_fifo_entry};
ghost use Rattle.cg_sv.specs.Views.{entry_of};
ghost use Rattle.cg_svxbar.specs.Viewed.{link_of, part_entry};

use crate::instances::{add_fifo, add_join, add_split};
use crate::links::{Link, joined_link, lane, node_link, pair_link, socket_link};
use crate::nodes::{clock, feeders, label, reach};
use crate::selects::select_name;
use cg_base::{List, Memory};
use cg_desc::XbarDesc;
use cg_nodes::Part;
use cg_sv::Entry;
use std::alloc::Global;

/// Adds a host's FIFO, from its clock to the crossbar's.
fn add_host_fifo(
    alloc: Global,
    entries: &mut List<Entry>,
    xbar: &XbarDesc,
    host: usize,
) -> Result<(), Memory>
    ensures { OnOk result (map entry_of entries.new ≡ map entry_of entries.old ++ host_fifo_entry xbar.now host ∷ []) }
{
    let label = label(alloc, xbar, host)?;
    let name = format!(in alloc; "u_hf_{label}")?;
    let from = node_link(alloc, "h_", xbar, host)?;
    let to = node_link(alloc, "f_", xbar, host)?;
    let near = clock(xbar, host);
    add_fifo(alloc, entries, &name, near, xbar.clock.as_str(), &from, &to)?;
    Ok(())
}

/// The links from a host's 1-to-N socket, in the order of its devices.
fn lanes(alloc: Global, xbar: &XbarDesc, host: usize) -> Result<Vec<Link>, Memory>
    ensures { IfOk result (λ links. map link_of links.items ≡ map (lane xbar.now host) (reach xbar.now host)) }
{
    let mut lanes = Vec::new(alloc);
    for device in reach(xbar, host) {
        let link = lane(alloc, xbar, host, *device as usize)?;
        lanes.push(link)?;
    }
    Ok(lanes)
}

/// Adds a host's 1-to-N socket.
fn add_host_split(
    alloc: Global,
    entries: &mut List<Entry>,
    xbar: &XbarDesc,
    host: usize,
) -> Result<(), Memory>
    ensures { OnOk result (map entry_of entries.new ≡ map entry_of entries.old ++ host_split_entry xbar.now host ∷ []) }
{
    let label = label(alloc, xbar, host)?;
    let name = format!(in alloc; "u_s_{label}")?;
    let select = select_name(alloc, xbar, host)?;
    let from = socket_link(alloc, xbar, host)?;
    let to = lanes(alloc, xbar, host)?;
    let (clock, select) = (xbar.clock.as_str(), select.as_str());
    add_split(alloc, entries, &name, clock, select, &from, to.as_slice())?;
    Ok(())
}

/// The links to a device's M-to-1 socket, in the order of its hosts.
fn join_lanes(alloc: Global, xbar: &XbarDesc, device: usize) -> Result<Vec<Link>, Memory>
    ensures { IfOk result (λ links. map link_of links.items ≡ join_lanes xbar.now device) }
{
    let hosts = feeders(alloc, xbar, device)?;
    let mut lanes = Vec::new(alloc);
    for host in hosts.iter() {
        let link = pair_link(alloc, xbar, *host, device)?;
        lanes.push(link)?;
    }
    Ok(lanes)
}

/// Adds a device's M-to-1 socket.
fn add_device_join(
    alloc: Global,
    entries: &mut List<Entry>,
    xbar: &XbarDesc,
    device: usize,
) -> Result<(), Memory>
    ensures { OnOk result (map entry_of entries.new ≡ map entry_of entries.old ++ device_join_entry xbar.now device ∷ []) }
{
    let label = label(alloc, xbar, device)?;
    let name = format!(in alloc; "u_m_{label}")?;
    let from = join_lanes(alloc, xbar, device)?;
    let to = joined_link(alloc, xbar, device)?;
    add_join(
        alloc,
        entries,
        &name,
        xbar.clock.as_str(),
        from.as_slice(),
        &to,
    )?;
    Ok(())
}

/// Adds a device's FIFO, from the crossbar's clock to the device's.
fn add_device_fifo(
    alloc: Global,
    entries: &mut List<Entry>,
    xbar: &XbarDesc,
    device: usize,
) -> Result<(), Memory>
    ensures { OnOk result (map entry_of entries.new ≡ map entry_of entries.old ++ device_fifo_entry xbar.now device ∷ []) }
{
    let label = label(alloc, xbar, device)?;
    let name = format!(in alloc; "u_df_{label}")?;
    let from = node_link(alloc, "m_", xbar, device)?;
    let to = node_link(alloc, "d_", xbar, device)?;
    let far = clock(xbar, device);
    add_fifo(alloc, entries, &name, xbar.clock.as_str(), far, &from, &to)?;
    Ok(())
}

/// Adds a part.
fn add_part(
    alloc: Global,
    entries: &mut List<Entry>,
    xbar: &XbarDesc,
    part: Part,
) -> Result<(), Memory>
    ensures { OnOk result (map entry_of entries.new ≡ map entry_of entries.old ++ part_entry xbar.now part ∷ []) }
{
    match part {
        Part::HostFifo { host } => add_host_fifo(alloc, entries, xbar, host as usize)?,
        Part::Split { host } => add_host_split(alloc, entries, xbar, host as usize)?,
        Part::Join { device } => add_device_join(alloc, entries, xbar, device as usize)?,
        Part::DeviceFifo { device } => add_device_fifo(alloc, entries, xbar, device as usize)?,
    }
    Ok(())
}

/// Adds the parts, in their order.
pub fn add_parts(
    alloc: Global,
    entries: &mut List<Entry>,
    xbar: &XbarDesc,
    parts: &[Part],
) -> Result<(), Memory>
    ensures { OnOk result (map entry_of entries.new ≡ map entry_of entries.old ++ map (part_entry xbar.now) parts.now) }
{
    for part in parts {
        add_part(alloc, entries, xbar, *part)?;
    }
    Ok(())
}
