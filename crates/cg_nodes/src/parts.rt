//! The parts of a crossbar.

ghost use Rattle.std.specs.Prelude.{◌≡◌, ◌==◌, ◌++◌, ◌<◌, ◌^◌, IfOk, OnOk, count_by, false, length, true};
ghost use Rattle.std.specs.List.{flat_map, list_any};
ghost use Rattle.cg_nodes.specs.Listed.{connects, device_parts, devices_of, has_fifo, has_join, host_parts, hosts_of, numbers_of, parts_of};

use cg_base::{List, Memory};
use cg_desc::{NodeDesc, XbarDesc};
use std::alloc::Global;

/// A part that stands in the way of requests, by the number of the node at which it stands.
#[derive(Clone, Copy, Debug, PartialEq, Eq)]
pub enum Part {
    /// The asynchronous FIFO between a host and its 1-to-N socket.
    HostFifo { host: u32 },
    /// The 1-to-N socket behind a host.
    Split { host: u32 },
    /// The M-to-1 socket before a device.
    Join { device: u32 },
    /// The asynchronous FIFO between a crossbar and a device.
    DeviceFifo { device: u32 },
}

/// The numbers of the hosts, or of the devices.
fn numbers_of(alloc: Global, host: bool, nodes: &[NodeDesc]) -> Result<List<u32>, Memory>
    requires { length nodes.now < 2 ^ 32 }
    ensures { IfOk result (λ numbers. numbers ≡ numbers_of host 0 nodes.now) }
{
    let mut numbers = List::new(alloc);
    for (number, node) in nodes.iter().enumerate() {
        if node.host != host {
            continue;
        }
        numbers.push(number as u32)?;
    }
    Ok(numbers)
}

fn is_among(numbers: &[u32], number: u32) -> bool
    ensures { result ≡ list_any (λ n. n == number) numbers.now }
{
    numbers.iter().any(|n| *n == number)
}

/// Whether a node has a device among those that it connects to.
#[tactic(auto, unfolding(crate::specs::Listed::connects))]
fn connects(xbar: &XbarDesc, device: u32, host: u32) -> bool
    ensures { result ≡ connects xbar.now device host }
{
    match xbar.nodes.as_slice().get(host as usize) {
        Some(node) => is_among(node.to.as_slice(), device),
        None => false,
    }
}

/// Whether the clock of a node is not the crossbar's.
#[tactic(auto, unfolding(crate::specs::Listed::has_fifo))]
fn has_fifo(xbar: &XbarDesc, node: u32) -> bool
    ensures { result ≡ has_fifo xbar.now node }
{
    match xbar.nodes.as_slice().get(node as usize) {
        Some(node) => node.clock.as_str() != xbar.clock.as_str(),
        None => false,
    }
}

/// How many of the hosts connect to a device.
fn feeder_count(xbar: &XbarDesc, device: u32, hosts: &[u32]) -> usize
    ensures { result ≡ count_by (connects xbar.now device) hosts.now }
{
    hosts
        .iter()
        .filter(|host| connects(xbar, device, **host))
        .count()
}

/// Whether at least two of the hosts connect to a device.
#[tactic(auto, unfolding(crate::specs::Listed::has_join, crate::specs::Listed::feeders_of))]
fn has_join(xbar: &XbarDesc, device: u32, hosts: &[u32]) -> bool
    requires { hosts.now ≡ hosts_of xbar.now }
    ensures { result ≡ has_join xbar.now device }
{
    feeder_count(xbar, device, hosts) >= 2
}

/// The parts of a host.
#[tactic(auto, unfolding(crate::specs::Listed::host_parts))]
fn add_host_part(xbar: &XbarDesc, host: u32, parts: &mut List<Part>) -> Result<(), Memory>
    ensures { OnOk result (parts.new ≡ parts.old ++ host_parts xbar.now host) }
{
    if has_fifo(xbar, host) {
        parts.push(Part::HostFifo { host })?;
    }
    parts.push(Part::Split { host })?;
    Ok(())
}

/// The parts of some hosts.
fn add_host_parts(xbar: &XbarDesc, hosts: &[u32], parts: &mut List<Part>) -> Result<(), Memory>
    ensures { OnOk result (parts.new ≡ parts.old ++ flat_map (host_parts xbar.now) hosts.now) }
{
    for host in hosts {
        add_host_part(xbar, *host, parts)?;
    }
    Ok(())
}

/// The parts of a device, to which some of the hosts connect.
#[tactic(auto, unfolding(crate::specs::Listed::device_parts))]
fn add_device_part(
    xbar: &XbarDesc,
    hosts: &[u32],
    device: u32,
    parts: &mut List<Part>,
) -> Result<(), Memory>
    requires { hosts.now ≡ hosts_of xbar.now }
    ensures { OnOk result (parts.new ≡ parts.old ++ device_parts xbar.now device) }
{
    if has_join(xbar, device, hosts) {
        parts.push(Part::Join { device })?;
    }
    if has_fifo(xbar, device) {
        parts.push(Part::DeviceFifo { device })?;
    }
    Ok(())
}

/// The parts of some devices.
fn add_device_parts(
    xbar: &XbarDesc,
    hosts: &[u32],
    devices: &[u32],
    parts: &mut List<Part>,
) -> Result<(), Memory>
    requires { hosts.now ≡ hosts_of xbar.now }
    ensures { OnOk result (parts.new ≡ parts.old ++ flat_map (device_parts xbar.now) devices.now) }
{
    for device in devices {
        add_device_part(xbar, hosts, *device, parts)?;
    }
    Ok(())
}

/// The parts of the hosts, then those of the devices.
#[tactic(auto, unfolding(crate::specs::Listed::parts_of, crate::specs::Listed::hosts_of, crate::specs::Listed::devices_of))]
pub(crate) fn parts_of(alloc: Global, xbar: &XbarDesc) -> Result<List<Part>, Memory>
    requires { length xbar.now.nodes < 2 ^ 32 }
    ensures { IfOk result (λ parts. parts ≡ parts_of xbar.now) }
{
    let hosts = numbers_of(alloc, true, xbar.nodes.as_slice())?;
    let devices = numbers_of(alloc, false, xbar.nodes.as_slice())?;
    let mut parts = List::new(alloc);
    add_host_parts(xbar, hosts.as_slice(), &mut parts)?;
    add_device_parts(xbar, hosts.as_slice(), devices.as_slice(), &mut parts)?;
    Ok(parts)
}
