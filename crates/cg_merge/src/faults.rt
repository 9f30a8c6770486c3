//! The first fault of all files of a top.

ghost use Rattle.std.specs.Prelude.{◌≡◌, IfOk};
ghost use Rattle.cg_desc.specs.Merged.{design_of};
ghost use Rattle.cg_finding.specs.Found.{sees};
ghost use Rattle.cg_merge.specs.Checks.{AreRead};
ghost use Rattle.cg_merge.specs.Faults.{KeepsEarlier, TellsFault, fault_of};
ghost use Rattle.cg_merge.specs.Violations.{Violates};

use crate::instances::first_in_top;
use crate::nodes::first_in_crossbar;
use cg_base::Memory;
use cg_desc::{DescFault, Fault, MergedTop};
use cg_finding::{Found, refusal};
use std::alloc::Global;

/// The earlier of two faults, as far as there are two; the first, where neither is before the other.
pub fn earlier_fault(first: Option<Fault>, second: Option<Fault>) -> Option<Fault>
    ensures { KeepsEarlier first second result }
{
    let Some(first) = first else {
        return second;
    };
    let Some(second) = second else {
        return Some(first);
    };
    if second.before(&first) {
        Some(second)
    } else {
        Some(first)
    }
}

/// The fault that a finding is in the file of this number, if there is one.
fn told(alloc: Global, found: Option<Found>, file: u32) -> Result<Option<Fault>, Memory>
    ensures { IfOk result (λ fault. fault ≡ fault_of file (sees found.entry)) }
{
    let Some(found) = found else {
        return Ok(None);
    };
    match refusal(alloc, found, file) {
        DescFault::Fault(fault) => Ok(Some(fault)),
        DescFault::Memory => Err(Memory),
    }
}

/// The first fault of the top's file and the files of its crossbars.
pub(crate) fn first_fault(alloc: Global, top: &MergedTop) -> Result<Option<Fault>, Memory>
    requires { AreRead top.now }
    ensures { IfOk result (λ fault. TellsFault fault (Violates (design_of top.now))) }
{
    let mut first = told(alloc, first_in_top(top), top.top.file)?;
    for (number, xbar) in top.xbars.as_slice().iter().enumerate() {
        let here = told(alloc, first_in_crossbar(top, number, xbar), xbar.file)?;
        first = earlier_fault(first, here);
    }
    Ok(first)
}
