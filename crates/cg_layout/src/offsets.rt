//! Where the items of an interface begin and end.

ghost use Rattle.std.specs.Prelude.{◌≡◌, ◌↔◌, ◌+◌, ◌^◌, ◌≤◌, IsTrue};
ghost use Rattle.std.specs.Int.{IsPowerOfTwo};
ghost use Rattle.cg_base.specs.Arithmetic.{IsLeastMultiple};
ghost use Rattle.cg_desc.specs.Valid.{IsValidItem};
ghost use Rattle.cg_layout.specs.Inner.Extents.{Extends};
ghost use Rattle.cg_layout.specs.Violations.{IsSkipBack};

use cg_desc::Item;

/// Where an item begins and where it ends, in bytes.
#[derive(Clone, Copy)]
pub struct Extent {
    pub first: u64,
    pub end: u64,
}

/// A row of this span, in bytes, behind what ends at `low`: it begins at the least multiple.
fn row_extent(low: u64, span: u64) -> Extent
    requires low { low ≤ 2 ^ 24 }
    requires power { IsPowerOfTwo span }
    requires span { span ≤ 2 ^ 24 }
    ensures first { IsLeastMultiple span low result.first }
    ensures end { result.end ≡ result.first + span }
{
    let first = low.next_multiple_of(span);
    Extent {
        first,
        end: first + span,
    }
}

/// Where an item begins and ends behind what ends at `low`.
pub fn extent_of(low: u64, item: &Item) -> Extent
    requires low { low ≤ 2 ^ 24 }
    requires valid { IsValidItem item.now }
    ensures { Extends low item.now result.first result.end }
{
    match item {
        Item::Reg(_) => row_extent(low, 4),
        Item::Window(window) => row_extent(low, (4 * u64::from(window.items)).next_power_of_two()),
        Item::SkipTo { to, .. } => Extent {
            first: u64::from(*to),
            end: u64::from(*to),
        },
        Item::Reserved { words, .. } => Extent {
            first: low,
            end: low + 4 * u64::from(*words),
        },
    }
}

/// Whether the item is a skip that leads to no word, or to one before `low`.
pub fn is_skip_back(low: u64, item: &Item) -> bool
    ensures { IsTrue result ↔ IsSkipBack low item.now }
{
    match item {
        Item::SkipTo { to, .. } => *to % 4 != 0 || u64::from(*to) < low,
        _ => false,
    }
}
