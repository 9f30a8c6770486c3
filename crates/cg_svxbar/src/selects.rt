//! The selects of the 1-to-N sockets: which of a host's devices has the address of a request.

ghost use Rattle.std.specs.Prelude.{◌≡◌, ◌≤◌, ◌++◌, [], ◌∷◌, IfOk, OnOk, map};
ghost use Rattle.cg_svspec.specs.Tree.{any, cat, expressions};
ghost use Rattle.cg_busspec.specs.Crossbar.{crossbar_of, ranges_at};
ghost use Rattle.cg_busspec.specs.CrossbarModule.{power_of, range_term, range_terms, select, host_select, sel, crossbar_selects};
ghost use Rattle.cg_sv.specs.Views.{expression_of, entry_of};

use crate::links::socket_link;
use crate::nodes::{hosts, label, reach};
use cg_base::{List, Memory, Text};
use cg_desc::{NodeRanges, Range, XbarDesc};
use cg_sv::{Entry, Expr, make};
use std::alloc::Global;

/// The power of a range's size: how often it can be halved, at most 32 times.
#[tactic(auto, unfolding(cg_busspec::specs::CrossbarModule::power_of), using(crate::proofs::Powers::powers))]
pub fn power_of(range: &Range) -> u32
    ensures power { result ≡ power_of range.now }
    ensures few { result ≤ 32 }
{
    let mut left = range.size;
    let mut power = 0u32;
    while power < 32 && left > 1 {
        left /= 2;
        power += 1;
    }
    power
}

/// Whether the address of a request is in a range.
#[tactic(auto, unfolding(cg_busspec::specs::CrossbarModule::range_term))]
fn range_term(alloc: Global, request: &str, range: &Range) -> Result<Expr, Memory>
    ensures { IfOk result (λ x. expression_of x ≡ range_term request.now range.now) }
{
    let power = power_of(range);
    if power == 32 {
        return Ok(make::lit(1, 1));
    }
    let address = make::cut(alloc, request, 63, 32 + power)?;
    let base = make::lit(32 - power, u64::from(range.base) >> power);
    let term = make::equal(alloc, address, base)?;
    Ok(term)
}

/// One term for each range.
fn range_terms(alloc: Global, request: &str, ranges: &[Range]) -> Result<List<Expr>, Memory>
    ensures { IfOk result (λ terms. expressions (map expression_of terms) ≡ range_terms request.now ranges.now) }
{
    let mut terms = List::new(alloc);
    for range in ranges {
        let term = range_term(alloc, request, range)?;
        terms.push(term)?;
    }
    Ok(terms)
}

/// The ranges of a device; none where there is no such device.
#[tactic(auto, using(crate::proofs::Powers::ranges))]
fn device_ranges(ranges: &[NodeRanges], device: usize) -> &[Range]
    ensures { result.now ≡ ranges_at ranges.entry.now device }
{
    match ranges.get(device) {
        None => &[],
        Some(ranges) => ranges.ranges.as_slice(),
    }
}

/// Whether a device has the address of a request in one of its ranges.
fn has_address(
    alloc: Global,
    ranges: &[NodeRanges],
    request: &str,
    device: usize,
) -> Result<Expr, Memory>
    ensures { IfOk result (λ x. expression_of x ≡ any (cat (range_terms request.now (ranges_at ranges.now device)))) }
{
    let terms = range_terms(alloc, request, device_ranges(ranges, device))?;
    let some = make::any(alloc, make::cat(terms))?;
    Ok(some)
}

/// The number of the first of a host's devices that has the address of a request, and that of all devices where there is none.
#[tactic(auto, using(crate::proofs::Powers::select_steps))]
fn select(
    alloc: Global,
    xbar: &XbarDesc,
    ranges: &[NodeRanges],
    request: &str,
    devices: &[u32],
) -> Result<Expr, Memory>
    ensures { IfOk result (λ x. expression_of x ≡ select (crossbar_of xbar.now ranges.now) request.now 0 devices.now) }
{
    let mut select = make::lit(8, devices.len() as u64);
    for number in (0..devices.len()).rev() {
        let has = has_address(alloc, ranges, request, devices[number] as usize)?;
        select = make::pick(alloc, has, make::lit(8, number as u64), select)?;
    }
    Ok(select)
}

/// Adds the select of a host's socket.
fn add_select(
    alloc: Global,
    entries: &mut List<Entry>,
    xbar: &XbarDesc,
    ranges: &[NodeRanges],
    host: usize,
) -> Result<(), Memory>
    ensures { OnOk result (map entry_of entries.new ≡ map entry_of entries.old ++ host_select (crossbar_of xbar.now ranges.now) host ∷ []) }
{
    let link = socket_link(alloc, xbar, host)?;
    let select = select(
        alloc,
        xbar,
        ranges,
        link.request.as_str(),
        reach(xbar, host),
    )?;
    let name = select_name(alloc, xbar, host)?;
    make::drive(alloc, entries, 8, name.as_str(), select)?;
    Ok(())
}

/// The name of the net that selects at a host's socket.
pub fn select_name(alloc: Global, xbar: &XbarDesc, host: usize) -> Result<Text, Memory>
    ensures { IfOk result (λ name. name ≡ sel xbar.now host) }
{
    let host = label(alloc, xbar, host)?;
    let name = format!(in alloc; "sel_{host}")?;
    Ok(Text::from_string(name))
}

/// Adds those of all hosts.
pub fn add_selects(
    alloc: Global,
    entries: &mut List<Entry>,
    xbar: &XbarDesc,
    ranges: &[NodeRanges],
) -> Result<(), Memory>
    ensures { OnOk result (map entry_of entries.new ≡ map entry_of entries.old ++ crossbar_selects (crossbar_of xbar.now ranges.now)) }
{
    let hosts = hosts(alloc, xbar)?;
    for host in hosts.iter() {
        add_select(alloc, entries, xbar, ranges, *host)?;
    }
    Ok(())
}
