//! Rows on the first of a list of ranges that shares an address with an earlier one.

ghost use Rattle.std.specs.Prelude.{◌≤◌, ◌^◌, IfOk, IfSome};
ghost use Rattle.cg_svspec.specs.Printable.{AllOf};

use cg_base::{List, Memory, parse_int};
use cg_desc::Range;
use cg_space::first_shared;
use std::alloc::Global;

/// The most ranges of a row.
const MOST: usize = 1_000;

/// A number of at most 32 bits.
fn number_of(word: &str) -> Option<u32> {
    match parse_int(word) {
        Ok(number) => u32::try_from(number).ok(),
        Err(_) => None,
    }
}

/// The range of a line: its base and its size.
fn range_of(line: &str) -> Option<Range>
    ensures { IfSome result (λ range. range.size ≤ 2 ^ 32) }
{
    let (base, size) = line.split_once(' ')?;
    Some(Range {
        base: number_of(base)?,
        size: u64::from(number_of(size)?),
    })
}

/// The ranges of the lines, as far as they are some.
fn ranges_of(alloc: Global, lines: &str) -> Result<List<Range>, Memory>
    ensures { IfOk result (λ ranges. AllOf (λ range. range.size ≤ 2 ^ 32) ranges) }
{
    let mut ranges = List::new(alloc);
    for line in lines.lines() {
        if let Some(range) = range_of(line) {
            ranges.push(range)?;
        }
    }
    Ok(ranges)
}

/// The place of the range, counted from 0, or that there is none.
pub fn answer(alloc: Global, given: &str) -> Result<String, Memory> {
    let ranges = ranges_of(alloc, given)?;
    if ranges.len() > MOST {
        return Ok(String::from_str(alloc, "too many")?);
    }
    match first_shared(alloc, ranges.as_slice())? {
        Some(place) => Ok(format!(in alloc; "{place}")?),
        None => Ok(String::from_str(alloc, "none")?),
    }
}
