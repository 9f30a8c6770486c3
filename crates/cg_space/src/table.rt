//! What is kept of the ranges of each node, crossbar by crossbar.

ghost use Rattle.std.specs.Prelude.{◌≡◌, ◌↔◌, ◌<◌, ◌+◌, ◌≤◌, [], ℕ, get_or, length, IfOk, IsTrue, OnOk};
ghost use Rattle.cg_svspec.specs.Printable.{AllOf};
ghost use Rattle.cg_desc.specs.Merged.{EndAt, FaceAt, IsMerged};
ghost use Rattle.cg_desc.specs.Reach.{IsInnerHost, Nests};
ghost use Rattle.cg_desc.specs.declared.block.LaidFace.{LaidFace as AFace};
ghost use Rattle.cg_desc.specs.declared.crossbar.NodeDesc.{NodeDesc as ANode};
ghost use Rattle.cg_desc.specs.declared.top.NodeEnd.TheVariants.{Xbar as crossbar};
ghost use Rattle.cg_space.specs.Inner.Sound.{HasNode, IsDeviceAt, IsSound};
ghost use Rattle.cg_space.specs.Inner.Tables.{AreKept, AreTables, IsEntry, IsFaceRange, IsKept, IsTable, RanksFall, RightBelow};

use crate::coverage::Coverage;
use crate::nodes::{end_at, face_at, node_at, node_count};
use cg_base::{List, Memory};
use cg_desc::{MergedTop, NodeEnd, Range};
use std::alloc::Global;

/// The range of a device interface of an instance.
fn face_range(top: &MergedTop, inst: u32, face: u32) -> Range
    requires merged { IsMerged top.now }
    requires there { (laid : AFace) × FaceAt top.now inst face laid }
    ensures { IsFaceRange top.now inst face result }
{
    Range {
        base: top.base(inst, face),
        size: u64::from(face_at(top, inst, face).size),
    }
}

/// Whether a node is a host that stands for the crossbar `outer`.
fn is_inner_host(top: &MergedTop, xbar: usize, node: usize, outer: u32) -> bool
    requires sound { IsSound top.now }
    requires there { HasNode top.now xbar node }
    ensures { IsTrue result ↔ ((host : ANode) × IsInnerHost top.now outer xbar node host) }
{
    if !node_at(top, xbar, node).host {
        return false;
    }
    match end_at(top, xbar, node) {
        NodeEnd::Xbar { xbar } => xbar == outer,
        NodeEnd::Face { .. } | NodeEnd::Host { .. } | NodeEnd::Outside => false,
    }
}

/// The devices to which the host of a crossbar connects that stands for the crossbar `outer`.
pub fn inner_to(top: &MergedTop, xbar: usize, outer: u32) -> &[u32]
    requires sound { IsSound top.now }
    requires there { xbar < length top.now.xbars }
    ensures { (k : ℕ) (host : ANode) → IsInnerHost top.now outer xbar k host → result.now ≡ host.to }
{
    for node in 0..node_count(top, xbar) {
        if is_inner_host(top, xbar, node, outer) {
            return node_at(top, xbar, node).to.as_slice();
        }
    }
    &[]
}

/// What is kept of the ranges of these devices of a crossbar, one after the other.
fn coverage_of_all(
    alloc: Global,
    top: &MergedTop,
    xbar: usize,
    to: &[u32],
    table: &[Coverage],
) -> Result<Coverage, Memory>
    requires table { IsTable top.now xbar table.now }
    requires devices { AllOf (IsDeviceAt top.now xbar) to.now }
    ensures { IfOk result (AreKept top.now xbar to.now) }
{
    let mut coverage = Coverage::new(alloc);
    for device in to {
        coverage.add(alloc, &table[*device as usize])?;
    }
    Ok(coverage)
}

/// What is kept of the ranges of a device, by the tables of the crossbars that it may stand for.
fn coverage_of(
    alloc: Global,
    top: &MergedTop,
    xbar: usize,
    node: usize,
    tables: &[List<Coverage>],
) -> Result<Coverage, Memory>
    requires sound { IsSound top.now }
    requires device { IsDeviceAt top.now xbar node }
    requires all { length tables.now ≡ length top.now.xbars }
    requires below { (y : ℕ) → EndAt top.now xbar node (crossbar y) → IsTable top.now y (get_or tables.now y []) }
    ensures { IfOk result (IsKept top.now xbar node) }
{
    match end_at(top, xbar, node) {
        NodeEnd::Face { inst, face } => Coverage::of(alloc, &[face_range(top, inst, face)]),
        NodeEnd::Xbar { xbar: inner } => {
            let inner = inner as usize;
            let to = inner_to(top, inner, xbar as u32);
            coverage_of_all(alloc, top, inner, to, tables[inner].as_slice())
        }
        NodeEnd::Outside => Coverage::of(alloc, node_at(top, xbar, node).ranges.as_slice()),
        NodeEnd::Host { .. } => Ok(Coverage::new(alloc)),
    }
}

/// What is kept of a node, of a host nothing.
fn entry_of(
    alloc: Global,
    top: &MergedTop,
    xbar: usize,
    node: usize,
    tables: &[List<Coverage>],
) -> Result<Coverage, Memory>
    requires sound { IsSound top.now }
    requires there { HasNode top.now xbar node }
    requires all { length tables.now ≡ length top.now.xbars }
    requires below { (y : ℕ) → Nests top.now xbar y → IsTable top.now y (get_or tables.now y []) }
    ensures { IfOk result (IsEntry top.now xbar node) }
{
    if node_at(top, xbar, node).host {
        return Ok(Coverage::new(alloc));
    }
    coverage_of(alloc, top, xbar, node, tables)
}

/// What is kept of the nodes of a crossbar, by the tables of the crossbars below it.
fn table_of(
    alloc: Global,
    top: &MergedTop,
    xbar: usize,
    tables: &[List<Coverage>],
) -> Result<List<Coverage>, Memory>
    requires sound { IsSound top.now }
    requires there { xbar < length top.now.xbars }
    requires all { length tables.now ≡ length top.now.xbars }
    requires below { (y : ℕ) → Nests top.now xbar y → IsTable top.now y (get_or tables.now y []) }
    ensures { IfOk result (IsTable top.now xbar) }
{
    let mut table = List::new(alloc);
    for node in 0..node_count(top, xbar) {
        table.push(entry_of(alloc, top, xbar, node, tables)?)?;
    }
    Ok(table)
}

/// A table without a row for each crossbar.
fn empty_tables(alloc: Global, count: usize) -> Result<Vec<List<Coverage>>, Memory>
    ensures { IfOk result (λ tables. length tables.items ≡ count) }
{
    let mut tables = Vec::new(alloc);
    for _number in 0..count {
        tables.push(List::new(alloc))?;
    }
    Ok(tables)
}

/// Makes the tables of the crossbars of one rank.
fn add_rank(
    alloc: Global,
    top: &MergedTop,
    ranks: &[usize],
    rank: usize,
    tables: &mut [List<Coverage>],
) -> Result<(), Memory>
    requires sound { IsSound top.now }
    requires ranked { length ranks.now ≡ length top.now.xbars }
    requires fall { RanksFall top.now ranks.now }
    requires all { length tables.old ≡ length top.now.xbars }
    requires below { RightBelow top.now ranks.now tables.old rank 0 }
    ensures all { OnOk result (length tables.new ≡ length top.now.xbars) }
    ensures below { OnOk result (RightBelow top.now ranks.now tables.new (rank + 1) 0) }
{
    for xbar in 0..top.xbars.len() {
        if ranks[xbar] == rank {
            tables[xbar] = table_of(alloc, top, xbar, tables)?;
        }
    }
    Ok(())
}

/// The table of each crossbar, those of lower ranks first.
pub fn tables(
    alloc: Global,
    top: &MergedTop,
    ranks: &[usize],
) -> Result<List<List<Coverage>>, Memory>
    requires sound { IsSound top.now }
    requires ranked { length ranks.now ≡ length top.now.xbars }
    requires within { (x : ℕ) → get_or ranks.now x 0 ≤ length top.now.xbars }
    requires fall { RanksFall top.now ranks.now }
    ensures { IfOk result (AreTables top.now) }
{
    let mut tables = empty_tables(alloc, top.xbars.len())?;
    for rank in 0..=top.xbars.len() {
        add_rank(alloc, top, ranks, rank, &mut tables)?;
    }
    Ok(List::from_vec(tables))
}
