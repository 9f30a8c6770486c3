//! The descriptions of the crossbars.

ghost use Rattle.std.specs.Prelude.{◌≡◌, ◌≤◌, ◌++◌, IfOk, OnOk, map, string_bytes};
ghost use Rattle.cg_sample.specs.Sample.{below_file, below_lines, crossbar_count, crossbar_file, crossbar_lines, crossbar_name, hosts_line, main_file, main_lines, node_line, target_line};

use crate::file::{SampleFile, file_of};
use crate::lines::{add, add_all, name_line, named, names};
use cg_base::{List, Memory, Text};
use std::alloc::Global;

const SIZE: u32 = 32;

/// How many crossbars stand below `main`.
pub fn crossbar_count(number: u32) -> u32
    requires { number ≤ 200 }
    ensures { result ≡ crossbar_count number }
{
    number.div_ceil(SIZE)
}

/// The line of a node.
fn node_line(alloc: Global, kind: &str, name: &str) -> Result<String, Memory>
    ensures { IfOk result (λ line. string_bytes line ≡ node_line kind.now name.now) }
{
    Ok(format!(in alloc; "    {{name: '{name}', type: {kind}}}")?)
}

/// The line of a host among the connections.
fn hosts_line(alloc: Global, host: &str) -> Result<String, Memory>
    ensures { IfOk result (λ line. string_bytes line ≡ hosts_line host.now) }
{
    Ok(format!(in alloc; "    {host}: [")?)
}

/// The line of a device to which a host connects.
fn target_line(alloc: Global, device: &str) -> Result<String, Memory>
    ensures { IfOk result (λ line. string_bytes line ≡ target_line device.now) }
{
    Ok(format!(in alloc; "      '{device}'")?)
}

/// Adds the lines of devices among the nodes.
fn add_nodes(
    alloc: Global,
    lines: &mut List<Text>,
    kind: &str,
    devices: &[Text],
) -> Result<(), Memory>
    ensures { OnOk result (lines.new ≡ lines.old ++ map (node_line kind.now) devices.now) }
{
    for device in devices {
        let line = node_line(alloc, kind, device.as_str())?;
        add(lines, &line)?;
    }
    Ok(())
}

/// Adds the lines of devices to which a host connects.
fn add_targets(alloc: Global, lines: &mut List<Text>, devices: &[Text]) -> Result<(), Memory>
    ensures { OnOk result (lines.new ≡ lines.old ++ map target_line devices.now) }
{
    for device in devices {
        let line = target_line(alloc, device.as_str())?;
        add(lines, &line)?;
    }
    Ok(())
}

/// The lines of a crossbar that connects one host to all devices.
#[tactic(auto, unfolding(crate::specs::Sample::crossbar_lines))]
fn crossbar_lines(
    alloc: Global,
    name: &str,
    host: &str,
    host_kind: &str,
    devices: &[Text],
    device_kind: &str,
) -> Result<List<Text>, Memory>
    ensures { IfOk result (λ lines. lines ≡ crossbar_lines name.now host.now host_kind.now devices.now device_kind.now) }
{
    let mut lines = List::new(alloc);
    let name = name_line(alloc, name)?;
    let node = node_line(alloc, host_kind, host)?;
    let hosts = hosts_line(alloc, host)?;
    add_all(
        &mut lines,
        &["{", &name, "  clock: 'clk_i'", "  nodes: [", &node],
    )?;
    add_nodes(alloc, &mut lines, device_kind, devices)?;
    add_all(&mut lines, &["  ]", "  connections: {", &hosts])?;
    add_targets(alloc, &mut lines, devices)?;
    add_all(&mut lines, &["    ]", "  }", "}"])?;
    Ok(lines)
}

/// The file of a crossbar of this name.
fn crossbar_file(alloc: Global, name: &str, lines: &[Text]) -> Result<SampleFile, Memory>
    ensures { IfOk result (λ file. file ≡ crossbar_file name.now lines.now) }
{
    let name = format!(in alloc; "xbar_{name}.hjson")?;
    file_of(Text::from_string(name), lines)
}

/// The file of the crossbar `main`.
#[tactic(auto, unfolding(crate::specs::Sample::main_lines))]
pub fn main_file(alloc: Global, number: u32) -> Result<SampleFile, Memory>
    requires { number ≤ 200 }
    ensures { IfOk result (λ file. file ≡ main_file number) }
{
    let devices = names(alloc, "p", 0, crossbar_count(number))?;
    let lines = crossbar_lines(
        alloc,
        "main",
        "cpu",
        "'host'",
        devices.as_slice(),
        "'device', xbar: true",
    )?;
    crossbar_file(alloc, "main", lines.as_slice())
}

/// The file of crossbar `crossbar` below `main`, where there are `number` instances.
#[tactic(auto, unfolding(crate::specs::Sample::below_lines))]
pub fn below_file(alloc: Global, number: u32, crossbar: u32) -> Result<SampleFile, Memory>
    requires number { number ≤ 200 }
    requires crossbar { crossbar ≤ 200 }
    ensures { IfOk result (λ file. file ≡ below_file number crossbar) }
{
    let first = SIZE * crossbar;
    let count = SIZE.min(number.saturating_sub(first));
    let name = named(alloc, "p", crossbar)?;
    let devices = names(alloc, "i", first, count)?;
    let lines = crossbar_lines(
        alloc,
        name.as_str(),
        "main",
        "'host', xbar: true",
        devices.as_slice(),
        "'device'",
    )?;
    crossbar_file(alloc, name.as_str(), lines.as_slice())
}
