//! Which numbers are reached from which, where each leads to some.

ghost use Rattle.std.specs.Prelude.{◌≡◌, ◌↔◌, ◌<◌, ℕ, [], true, false, get_or, length, map, IfOk};
ghost use Rattle.cg_svspec.specs.Printable.{AllOf};
ghost use Rattle.cg_space.specs.Inner.Graph.{AllWithin};
ghost use Rattle.cg_space.specs.Inner.Marks.{AreMarks, count, grow, marks_of, set_all};

use cg_base::{List, Memory};
use std::alloc::Global;

/// Marks these numbers.
fn mark(marks: &mut [bool], all: &[u32])
    requires { AllOf (λ k. k < length marks.old) all.now }
    ensures { marks.new ≡ set_all marks.old all.now }
{
    for number in all {
        marks[*number as usize] = true;
    }
}

/// Marks where the marked numbers lead, from the first on.
fn grow(marks: &mut [bool], links: &[List<u32>])
    requires all { length marks.old ≡ length links.now }
    requires within { AllWithin links.now }
    ensures { marks.new ≡ grow marks.old 0 links.now }
{
    for (number, to) in links.iter().enumerate() {
        if marks[number] {
            mark(marks, to.as_slice());
        }
    }
}

/// Marks which numbers are reached from this one: itself, and where those that are reached lead.
fn reached(alloc: Global, links: &[List<u32>], from: usize) -> Result<List<bool>, Memory>
    requires from { from < length links.now }
    requires within { AllWithin links.now }
    ensures { IfOk result (λ marks. marks ≡ marks_of links.now from) }
{
    let mut marks = vec![in alloc; false; links.len()]?;
    marks[from] = true;
    for _round in 0..links.len() {
        grow(&mut marks, links);
    }
    Ok(List::from_vec(marks))
}

/// Marks which numbers are reached, from each.
pub fn all_reached(alloc: Global, links: &[List<u32>]) -> Result<List<List<bool>>, Memory>
    requires within { AllWithin links.now }
    ensures { IfOk result (AreMarks links.now) }
{
    let mut all = List::new(alloc);
    for number in 0..links.len() {
        all.push(reached(alloc, links, number)?)?;
    }
    Ok(all)
}

/// How many are marked.
fn count(marks: &[bool]) -> usize
    ensures { result ≡ count marks.now }
{
    let mut marked = 0;
    for is_marked in marks {
        if *is_marked {
            marked += 1;
        }
    }
    marked
}

/// How many are marked in each list.
pub fn counts(alloc: Global, all: &[List<bool>]) -> Result<List<usize>, Memory>
    ensures { IfOk result (λ counts. counts ≡ map count all.now) }
{
    let mut counts = List::new(alloc);
    for marks in all {
        counts.push(count(marks.as_slice()))?;
    }
    Ok(counts)
}
