//! The first that a merged top breaks of the rules on ranges.

ghost use Rattle.std.specs.Prelude.{IfOk, List as Items, ℕ};
ghost use Rattle.cg_desc.specs.Merged.{IsValidMerged};
ghost use Rattle.cg_desc.specs.Reach.{NoCircle};
ghost use Rattle.cg_space.specs.Answers.{Answers};
ghost use Rattle.cg_space.specs.Inner.Marks.{AreMarks};
ghost use Rattle.cg_space.specs.Inner.Sound.{IsSound};
ghost use Rattle.cg_space.specs.Inner.Tables.{AreLinks, AreTables};
ghost use Rattle.cg_space.specs.Inner.Verdicts.{Circles, Judges, WrongRanges};

use crate::coverage::Coverage;
use crate::graph::{all_reached, counts};
use crate::links::links;
use crate::table::tables;
use crate::told::first_fault;
use crate::verdicts::{circles, wrong_ranges};
use cg_base::{List, Memory};
use cg_desc::{DescFault, MergedTop};
use std::alloc::Global;

/// The first device that is in a circle, where there is one.
fn check_circles(alloc: Global, top: &MergedTop, marks: &[List<bool>]) -> Result<(), DescFault>
    requires sound { IsSound top.now }
    requires links { (links : Items (Items ℕ)) × AreLinks top.now links × AreMarks links marks.now }
    ensures { Judges result (Circles top.now) }
{
    match circles(alloc, top, marks) {
        Ok(verdicts) => first_fault(alloc, top, verdicts.as_slice()),
        Err(_) => Err(DescFault::Memory),
    }
}

/// The first device whose ranges are wrong, where there is one.
fn check_ranges(alloc: Global, top: &MergedTop, tables: &[List<Coverage>]) -> Result<(), DescFault>
    requires sound { IsSound top.now }
    requires free { NoCircle top.now }
    requires tables { AreTables top.now tables.now }
    ensures { Judges result (WrongRanges top.now) }
{
    match wrong_ranges(alloc, top, tables) {
        Ok(verdicts) => first_fault(alloc, top, verdicts.as_slice()),
        Err(_) => Err(DescFault::Memory),
    }
}

/// What each crossbar leads to.
pub fn marks_of(alloc: Global, top: &MergedTop) -> Result<List<List<bool>>, Memory>
    requires { IsSound top.now }
    ensures { IfOk result (λ marks. (links : Items (Items ℕ)) × AreLinks top.now links × AreMarks links marks) }
{
    let links = links(alloc, top)?;
    all_reached(alloc, links.as_slice())
}

/// What is kept of each node's ranges, in a top without a circle.
pub fn tables_of(
    alloc: Global,
    top: &MergedTop,
    marks: &[List<bool>],
) -> Result<List<List<Coverage>>, Memory>
    requires sound { IsSound top.now }
    requires free { NoCircle top.now }
    requires links { (links : Items (Items ℕ)) × AreLinks top.now links × AreMarks links marks.now }
    ensures { IfOk result (AreTables top.now) }
{
    let ranks = counts(alloc, marks)?;
    tables(alloc, top, ranks.as_slice())
}

/// The tables of a merged top without a fault, or the first fault.
pub fn judged(alloc: Global, top: &MergedTop) -> Result<List<List<Coverage>>, DescFault>
    requires { IsValidMerged top.now }
    ensures { Answers result top.now (AreTables top.now) }
{
    let marks = match marks_of(alloc, top) {
        Ok(marks) => marks,
        Err(_) => return Err(DescFault::Memory),
    };
    match check_circles(alloc, top, marks.as_slice()) {
        Ok(()) => {}
        Err(fault) => return Err(fault),
    }
    let tables = match tables_of(alloc, top, marks.as_slice()) {
        Ok(tables) => tables,
        Err(_) => return Err(DescFault::Memory),
    };
    match check_ranges(alloc, top, tables.as_slice()) {
        Ok(()) => Ok(tables),
        Err(fault) => Err(fault),
    }
}

/// Refuses a merged top by the first that it breaks of the rules on ranges and nested crossbars: crossbars in a circle (rule 56), and where
/// there is none a device without a range or with one of a wrong shape (54), and ranges that share an address (55).
///
/// A wrong range behind a nested crossbar's device is told at that device too, which has it. `Memory` says nothing about the top.
pub fn check(alloc: Global, top: &MergedTop) -> Result<(), DescFault>
    requires { IsValidMerged top.now }
    ensures { Answers result top.now (λ _. Unit {0}) }
{
    match judged(alloc, top) {
        Ok(_) => Ok(()),
        Err(fault) => Err(fault),
    }
}
