//! What is wrong at a node.

ghost use Rattle.std.specs.Prelude.{◌≡◌, ◌↔◌, ◌<◌, ℕ, [], false, get_or, length, IsTrue};
ghost use Rattle.cg_svspec.specs.Names.{Among};
ghost use Rattle.cg_svspec.specs.Printable.{AllOf};
ghost use Rattle.cg_space.specs.Inner.Marks.{AreMarks};
ghost use Rattle.cg_space.specs.Inner.Sound.{HasNode, IsDeviceAt, IsSound};
ghost use Rattle.cg_space.specs.Inner.Tables.{AreLinks, IsTable};
ghost use Rattle.cg_space.specs.Inner.Verdicts.{DevicesMeet, HostMeets, IsCircleVerdict, IsRangeVerdict, MeetsEarlier, SomeHostMeets};
ghost use Rattle.std.specs.Prelude.{List as Items};

use crate::coverage::Coverage;
use crate::nodes::{nested_in, node_at, node_count};
use crate::region::share;
use cg_base::List;
use cg_desc::MergedTop;

/// What is wrong at a node: nothing at a host.
#[derive(Clone, Copy, Debug)]
pub struct Verdict {
    /// The crossbar that the device stands for leads back to the device's own.
    pub is_in_circle: bool,
    /// The device has no range, or one of a wrong shape.
    pub is_bad: bool,
    /// A range shares an address with another that a host reaches too.
    pub is_shared: bool,
}

/// Whether `to` is marked in the list of `from`.
fn is_marked(marks: &[List<bool>], from: usize, to: usize) -> bool
    requires from { from < length marks.now }
    requires to { to < length (get_or marks.now from []) }
    ensures { result ≡ get_or (get_or marks.now from []) to false }
{
    marks[from].as_slice()[to]
}

/// Whether a node is a device in a circle, by what each crossbar leads to.
pub fn circle_verdict(top: &MergedTop, xbar: usize, node: usize, marks: &[List<bool>]) -> Verdict
    requires sound { IsSound top.now }
    requires there { HasNode top.now xbar node }
    requires links { (links : Items (Items ℕ)) × AreLinks top.now links × AreMarks links marks.now }
    ensures { IsCircleVerdict top.now xbar node result }
{
    let is_in_circle = match nested_in(top, xbar, node) {
        Some(inner) => is_marked(marks, inner as usize, xbar),
        None => false,
    };
    Verdict {
        is_in_circle,
        is_bad: false,
        is_shared: false,
    }
}

/// Whether two devices share an address.
fn devices_meet(
    top: &MergedTop,
    xbar: usize,
    table: &[Coverage],
    first: usize,
    second: usize,
) -> bool
    requires sound { IsSound top.now }
    requires table { IsTable top.now xbar table.now }
    requires first { IsDeviceAt top.now xbar first }
    requires second { IsDeviceAt top.now xbar second }
    ensures { IsTrue result ↔ DevicesMeet top.now xbar first second }
{
    share(
        table[first].cells.as_slice(),
        table[second].cells.as_slice(),
    )
}

/// Whether a device is an earlier one than `node`, and shares an address with it.
fn is_met(top: &MergedTop, xbar: usize, table: &[Coverage], earlier: usize, node: usize) -> bool
    requires sound { IsSound top.now }
    requires table { IsTable top.now xbar table.now }
    requires earlier { IsDeviceAt top.now xbar earlier }
    requires device { IsDeviceAt top.now xbar node }
    ensures { IsTrue result ↔ ((earlier < node) × DevicesMeet top.now xbar earlier node) }
{
    if earlier >= node {
        return false;
    }
    devices_meet(top, xbar, table, earlier, node)
}

/// Whether one of these devices is an earlier one than `node`, and shares an address with it.
fn meets_earlier(top: &MergedTop, xbar: usize, table: &[Coverage], to: &[u32], node: usize) -> bool
    requires sound { IsSound top.now }
    requires table { IsTable top.now xbar table.now }
    requires devices { AllOf (IsDeviceAt top.now xbar) to.now }
    requires device { IsDeviceAt top.now xbar node }
    ensures { IsTrue result ↔ MeetsEarlier top.now xbar to.now node }
{
    for earlier in to {
        if is_met(top, xbar, table, *earlier as usize, node) {
            return true;
        }
    }
    false
}

/// Whether the number is among these.
fn is_among(numbers: &[u32], number: u32) -> bool
    ensures { IsTrue result ↔ Among number numbers.now }
{
    for other in numbers {
        if *other == number {
            return true;
        }
    }
    false
}

/// Whether a node is a host that connects to the device and to an earlier one that shares an address with it.
fn host_meets(top: &MergedTop, xbar: usize, table: &[Coverage], host: usize, node: usize) -> bool
    requires sound { IsSound top.now }
    requires table { IsTable top.now xbar table.now }
    requires there { HasNode top.now xbar host }
    requires device { IsDeviceAt top.now xbar node }
    ensures { IsTrue result ↔ HostMeets top.now xbar host node }
{
    let host = node_at(top, xbar, host);
    if !host.host {
        return false;
    }
    if !is_among(host.to.as_slice(), node as u32) {
        return false;
    }
    meets_earlier(top, xbar, table, host.to.as_slice(), node)
}

/// Whether a host does.
fn some_host_meets(top: &MergedTop, xbar: usize, table: &[Coverage], node: usize) -> bool
    requires sound { IsSound top.now }
    requires table { IsTable top.now xbar table.now }
    requires device { IsDeviceAt top.now xbar node }
    ensures { IsTrue result ↔ SomeHostMeets top.now xbar node }
{
    for host in 0..node_count(top, xbar) {
        if host_meets(top, xbar, table, host, node) {
            return true;
        }
    }
    false
}

/// What is wrong with the ranges of a node.
pub fn range_verdict(top: &MergedTop, xbar: usize, node: usize, table: &[Coverage]) -> Verdict
    requires sound { IsSound top.now }
    requires table { IsTable top.now xbar table.now }
    requires there { HasNode top.now xbar node }
    ensures { IsRangeVerdict top.now xbar node result }
{
    if node_at(top, xbar, node).host {
        return Verdict {
            is_in_circle: false,
            is_bad: false,
            is_shared: false,
        };
    }
    let coverage = &table[node];
    let meets = some_host_meets(top, xbar, table, node);
    Verdict {
        is_in_circle: false,
        is_bad: coverage.is_empty | coverage.is_bad,
        is_shared: coverage.is_shared | meets,
    }
}
