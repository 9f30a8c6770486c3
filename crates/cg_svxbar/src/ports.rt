//! The ports of a crossbar's module.

ghost use Rattle.std.specs.Prelude.{◌≡◌, ◌++◌, OnOk, map, flat_map};
ghost use Rattle.cg_busspec.specs.Crossbar.{hosts, devices};
ghost use Rattle.cg_busspec.specs.CrossbarModule.{clock_port, host_ports, device_ports};
ghost use Rattle.cg_sv.specs.Views.{port_of};

use crate::links::node_link;
use crate::nodes::{devices, hosts};
use cg_base::{List, Memory, Text};
use cg_desc::XbarDesc;
use cg_sv::{Port, make};
use std::alloc::Global;

/// Adds a port for each clock.
pub fn add_clock_ports(alloc: Global, ports: &mut List<Port>, clocks: &[Text]) -> Result<(), Memory>
    ensures { OnOk result (map port_of ports.new ≡ map port_of ports.old ++ map clock_port clocks.now) }
{
    for clock in clocks {
        let clock = clock.as_str();
        let name = format!(in alloc; "c_{clock}")?;
        make::input(alloc, ports, 1, name.as_str())?;
    }
    Ok(())
}

/// Adds a host's ports: its requests come in, and their responses go out.
fn add_host_ports(
    alloc: Global,
    ports: &mut List<Port>,
    xbar: &XbarDesc,
    host: usize,
) -> Result<(), Memory>
    ensures { OnOk result (map port_of ports.new ≡ map port_of ports.old ++ host_ports xbar.now host) }
{
    let link = node_link(alloc, "h_", xbar, host)?;
    make::input(alloc, ports, 70, link.request.as_str())?;
    make::output(alloc, ports, 33, link.response.as_str())?;
    Ok(())
}

/// Adds the ports of the hosts.
pub fn add_hosts_ports(alloc: Global, ports: &mut List<Port>, xbar: &XbarDesc) -> Result<(), Memory>
    ensures { OnOk result (map port_of ports.new ≡ map port_of ports.old ++ flat_map (host_ports xbar.now) (hosts xbar.now)) }
{
    let hosts = hosts(alloc, xbar)?;
    for host in hosts.iter() {
        add_host_ports(alloc, ports, xbar, *host)?;
    }
    Ok(())
}

/// Adds a device's ports: requests go out to it, and their responses come in.
fn add_device_ports(
    alloc: Global,
    ports: &mut List<Port>,
    xbar: &XbarDesc,
    device: usize,
) -> Result<(), Memory>
    ensures { OnOk result (map port_of ports.new ≡ map port_of ports.old ++ device_ports xbar.now device) }
{
    let link = node_link(alloc, "d_", xbar, device)?;
    make::output(alloc, ports, 70, link.request.as_str())?;
    make::input(alloc, ports, 33, link.response.as_str())?;
    Ok(())
}

/// Adds the ports of the devices.
pub fn add_devices_ports(
    alloc: Global,
    ports: &mut List<Port>,
    xbar: &XbarDesc,
) -> Result<(), Memory>
    ensures { OnOk result (map port_of ports.new ≡ map port_of ports.old ++ flat_map (device_ports xbar.now) (devices xbar.now)) }
{
    let devices = devices(alloc, xbar)?;
    for device in devices.iter() {
        add_device_ports(alloc, ports, xbar, *device)?;
    }
    Ok(())
}
