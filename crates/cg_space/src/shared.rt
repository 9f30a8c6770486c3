//! The first range that shares an address with an earlier one.

ghost use Rattle.std.specs.Prelude.{◌<◌, ◌≤◌, ◌^◌, length, IfOk};
ghost use Rattle.std.specs.Bool.{Decides};
ghost use Rattle.cg_svspec.specs.Printable.{AllOf};
ghost use Rattle.cg_space.specs.Inner.Extents.{AreExtents, HaveAddresses, Meet, Rise};
ghost use Rattle.cg_space.specs.Shared.{IsFirstShared};

use cg_base::Memory;
use cg_desc::Range;
use std::alloc::Global;

/// Where a range that has an address begins and ends, and its place in the list.
#[derive(Clone, Copy, Debug, Drop)]
pub struct Extent {
    pub first: u64,
    pub end: u64,
    pub place: u32,
}

/// The extents of the ranges that have an address, by rising first addresses.
fn sorted_extents(alloc: Global, ranges: &[Range]) -> Result<Vec<Extent>, Memory>
    requires few { length ranges.now < 2 ^ 32 }
    requires sizes { AllOf (λ r. r.size ≤ 2 ^ 32) ranges.now }
    ensures are { IfOk result (λ extents. AreExtents ranges.now extents.items) }
    ensures rise { IfOk result (λ extents. Rise extents.items) }
{
    let mut extents = Vec::new(alloc);
    for (place, range) in ranges.iter().enumerate() {
        if range.size > 0 {
            let first = u64::from(range.base);
            let end = first + range.size;
            let place = place as u32;
            extents.push(Extent { first, end, place })?;
        }
    }
    extents.sort_unstable_by_key(|extent| extent.first);
    Ok(extents)
}

/// Whether two of the extents at the first `count` places share an address, by one sweep over their ends. It takes no memory.
fn meet(extents: &[Extent], count: u32) -> bool
    requires addresses { HaveAddresses extents.now }
    ensures { Decides result (Meet extents.now count) }
{
    let mut end = 0;
    for extent in extents {
        if extent.place < count {
            if extent.first < end {
                return true;
            }
            end = extent.end;
        }
    }
    false
}

/// The least place whose range shares an address with an earlier range of the list, and `None` exactly where there is none. A range of
/// size 0 shares nothing.
///
/// The ranges are sorted once; then as many sweeps as the number of ranges has bits find the place.
pub fn first_shared(alloc: Global, ranges: &[Range]) -> Result<Option<u32>, Memory>
    requires few { length ranges.now < 2 ^ 32 }
    requires sizes { AllOf (λ r. r.size ≤ 2 ^ 32) ranges.now }
    ensures { IfOk result (IsFirstShared ranges.now) }
{
    let extents = sorted_extents(alloc, ranges)?;
    let mut low = 0;
    let mut high = ranges.len() as u32;
    if !meet(&extents, high) {
        return Ok(None);
    }
    while low + 1 < high {
        let middle = low + (high - low) / 2;
        if meet(&extents, middle) {
            high = middle;
        } else {
            low = middle;
        }
    }
    Ok(Some(low))
}
