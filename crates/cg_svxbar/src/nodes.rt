//! The nodes of a crossbar by their numbers: their names in nets, and who connects to whom.

ghost use Rattle.std.specs.Prelude.{◌≡◌, ◌++◌, ◌<◌, ◌^◌, IfSome, IfNone, IfOk, OnOk, flat_map, length};
ghost use Rattle.cg_busspec.specs.Crossbar.{node, no_node, numbers_of, hosts, devices, label, label_character, reach, feeders, is_in, is_joined, has_fifo};

use cg_base::{Memory, Text};
use cg_desc::{NodeDesc, XbarDesc};
use std::alloc::Global;

/// A name as it stands in nets: two underscores for a dot.
pub fn spelled(alloc: Global, name: &str) -> Result<Text, Memory>
    ensures { IfOk result (λ text. text ≡ flat_map label_character name.now) }
{
    let label = name.replace(alloc, '.', "__")?;
    Ok(Text::from_string(label))
}

/// The node of this number, if there is one.
#[tactic(auto, using(crate::proofs::NodeLists::nodes))]
pub fn node(xbar: &XbarDesc, number: usize) -> Option<&NodeDesc>
    ensures some { IfSome result (λ n. n.now ≡ node xbar.entry.now number) }
    ensures none { IfNone result (node xbar.entry.now number ≡ no_node) }
{
    xbar.nodes.as_slice().get(number)
}

/// The name of a node as it stands in nets; empty where there is no such node.
#[tactic(auto, unfolding(cg_busspec::specs::Crossbar::label))]
pub fn label(alloc: Global, xbar: &XbarDesc, number: usize) -> Result<Text, Memory>
    ensures { IfOk result (λ text. text ≡ label xbar.now number) }
{
    match node(xbar, number) {
        None => Ok(Text::new(alloc)),
        Some(node) => {
            let label = spelled(alloc, node.name.as_str())?;
            Ok(label)
        }
    }
}

/// The devices that a host connects to, in its order.
#[tactic(auto, unfolding(cg_busspec::specs::Crossbar::reach))]
pub fn reach(xbar: &XbarDesc, host: usize) -> &[u32]
    ensures { result.now ≡ reach xbar.entry.now host }
{
    match node(xbar, host) {
        None => &[],
        Some(node) => node.to.as_slice(),
    }
}

/// Whether a FIFO stands at a node, since its clock is not the crossbar's.
#[tactic(auto, unfolding(cg_busspec::specs::Crossbar::has_fifo))]
pub fn has_fifo(xbar: &XbarDesc, number: usize) -> bool
    ensures { result ≡ has_fifo xbar.now number }
{
    match node(xbar, number) {
        None => !xbar.clock.is_empty(),
        Some(node) => node.clock != xbar.clock,
    }
}

/// The clock of a node; empty where there is no such node.
pub fn clock(xbar: &XbarDesc, number: usize) -> &str
    ensures { result.now ≡ (node xbar.entry.now number).clock }
{
    match node(xbar, number) {
        None => "",
        Some(node) => node.clock.as_str(),
    }
}

/// The numbers of the hosts, or of the devices.
fn numbers_of(alloc: Global, nodes: &[NodeDesc], host: bool) -> Result<Vec<usize>, Memory>
    ensures { IfOk result (λ numbers. numbers.items ≡ numbers_of host 0 nodes.now) }
{
    let mut numbers = Vec::new(alloc);
    for (number, node) in nodes.iter().enumerate() {
        if node.host == host {
            numbers.push(number)?;
        }
    }
    Ok(numbers)
}

/// The hosts, in the order of nodes.
#[tactic(auto, unfolding(cg_busspec::specs::Crossbar::hosts))]
pub fn hosts(alloc: Global, xbar: &XbarDesc) -> Result<Vec<usize>, Memory>
    ensures { IfOk result (λ numbers. numbers.items ≡ hosts xbar.now) }
{
    let hosts = numbers_of(alloc, xbar.nodes.as_slice(), true)?;
    Ok(hosts)
}

/// The devices, in the order of nodes.
#[tactic(auto, unfolding(cg_busspec::specs::Crossbar::devices))]
pub fn devices(alloc: Global, xbar: &XbarDesc) -> Result<Vec<usize>, Memory>
    ensures { IfOk result (λ numbers. numbers.items ≡ devices xbar.now) }
{
    let devices = numbers_of(alloc, xbar.nodes.as_slice(), false)?;
    Ok(devices)
}

/// Whether a host connects to a device.

fn connects(xbar: &XbarDesc, host: usize, device: usize) -> bool
    ensures { result ≡ is_in (reach xbar.now host) device }
{
    for number in reach(xbar, host) {
        if *number as usize == device {
            return true;
        }
    }
    false
}

/// The hosts that connect to a device, in the order of nodes.
#[tactic(auto, unfolding(cg_busspec::specs::Crossbar::feeders))]
pub fn feeders(alloc: Global, xbar: &XbarDesc, device: usize) -> Result<Vec<usize>, Memory>
    ensures { IfOk result (λ numbers. numbers.items ≡ feeders xbar.now device) }
{
    let hosts = hosts(alloc, xbar)?;
    let mut feeders = Vec::new(alloc);
    for host in hosts.iter() {
        if connects(xbar, *host, device) {
            feeders.push(*host)?;
        }
    }
    Ok(feeders)
}

/// Whether an M-to-1 socket stands before a device, since more than one host connects to it.
#[tactic(auto, unfolding(cg_busspec::specs::Crossbar::is_joined))]
pub fn is_joined(alloc: Global, xbar: &XbarDesc, device: usize) -> Result<bool, Memory>
    ensures { IfOk result (λ joined. joined ≡ is_joined xbar.now device) }
{
    let feeders = feeders(alloc, xbar, device)?;
    Ok(feeders.len() >= 2)
}
