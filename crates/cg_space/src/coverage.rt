//! What is kept of a list of ranges.

ghost use Rattle.std.specs.Prelude.{◌≡◌, ◌≤◌, ◌^◌, ◌++◌, ◌∷◌, [], true, List as Items, IfOk, OnOk};
ghost use Rattle.std.specs.Bool.{Decides};
ghost use Rattle.cg_svspec.specs.Printable.{AllOf};
ghost use Rattle.cg_desc.specs.Ranges.{IsRange};
ghost use Rattle.cg_desc.specs.declared.crossbar.Range.{Range as ARange};
ghost use Rattle.cg_space.specs.Inner.Coverages.{IsCoverage};

use crate::region::{Cell, share, union};
use cg_base::{List, Memory};
use cg_desc::Range;
use std::alloc::Global;

/// The addresses of some ranges, and what is wrong with the ranges.
///
/// `ranges` are the ranges themselves as long as none has a bad shape and no two share an address. Else they are some of them, since the
/// list of a nested node may double at each level.
#[derive(Debug, Drop)]
pub struct Coverage {
    pub cells: List<Cell>,
    /// There is no range.
    pub is_empty: bool,
    /// One has a bad shape.
    pub is_bad: bool,
    /// Two share an address.
    pub is_shared: bool,
    pub ranges: List<Range>,
}

/// Whether the range has a good shape.
fn is_range(range: Range) -> bool
    requires { range.size ≤ 2 ^ 32 }
    ensures { Decides result (IsRange range) }
{
    let base = u64::from(range.base);
    if range.size < 4 {
        return false;
    }
    if range.size.next_power_of_two() != range.size {
        return false;
    }
    if base % range.size != 0 {
        return false;
    }
    base + range.size <= 4_294_967_296
}

/// Appends ranges, where this is asked for.
fn append_if(wanted: bool, ranges: &mut List<Range>, more: &[Range]) -> Result<(), Memory>
    ensures { OnOk result (wanted ≡ true → ranges.new ≡ ranges.old ++ more.now) }
{
    if wanted {
        return ranges.add(more);
    }
    Ok(())
}

impl Coverage {
    /// No ranges.
    pub fn new(alloc: Global) -> Coverage
        ensures { IsCoverage [] result }
    {
        Coverage {
            cells: List::new(alloc),
            is_empty: true,
            is_bad: false,
            is_shared: false,
            ranges: List::new(alloc),
        }
    }

    /// What is kept of a range.
    pub fn one(alloc: Global, range: Range) -> Result<Coverage, Memory>
        requires { range.size ≤ 2 ^ 32 }
        ensures { IfOk result (λ coverage. IsCoverage (range ∷ []) coverage) }
    {
        let mut cells = List::new(alloc);
        let first = u64::from(range.base);
        let end = first + range.size;
        if range.size > 0 {
            cells.push(Cell { first, end })?;
        }
        Ok(Coverage {
            cells,
            is_empty: false,
            is_bad: !is_range(range),
            is_shared: false,
            ranges: List::of(alloc, &[range])?,
        })
    }

    /// What is kept of these ranges.
    pub fn of(alloc: Global, ranges: &[Range]) -> Result<Coverage, Memory>
        requires { AllOf (λ range. range.size ≤ 2 ^ 32) ranges.now }
        ensures { IfOk result (λ coverage. IsCoverage ranges.now coverage) }
    {
        let mut coverage = Coverage::new(alloc);
        for range in ranges {
            coverage.add(alloc, &Coverage::one(alloc, *range)?)?;
        }
        Ok(coverage)
    }

    /// Appends other ranges.
    pub fn add(&mut self, alloc: Global, other: &Coverage) -> Result<(), Memory>
        requires { (rs ss : Items ARange) × IsCoverage rs self.old × IsCoverage ss other.now }
        ensures { OnOk result ((rs ss : Items ARange) → IsCoverage rs self.old → IsCoverage ss other.now → IsCoverage (rs ++ ss) self.new) }
    {
        let cells = union(alloc, self.cells.as_slice(), other.cells.as_slice())?;
        let shared = share(self.cells.as_slice(), other.cells.as_slice());
        self.cells = cells;
        self.is_empty = self.is_empty & other.is_empty;
        self.is_bad = self.is_bad | other.is_bad;
        self.is_shared = self.is_shared | other.is_shared | shared;
        append_if(
            !(self.is_bad | self.is_shared),
            &mut self.ranges,
            other.ranges.as_slice(),
        )
    }
}
