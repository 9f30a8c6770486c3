//! A top with its crossbars and blocks.

ghost use Rattle.std.specs.Prelude.{◌≡◌};
ghost use Rattle.cg_svspec.specs.Printable.{AllOf};
ghost use Rattle.cg_desc.specs.Crossbar.{IsValidCrossbar};
ghost use Rattle.cg_desc.specs.Merged.{IsValidLaidBlock, design_of};
ghost use Rattle.cg_desc.specs.Top.{AreItsFiles, IsValidTop};
ghost use Rattle.cg_merge.specs.Checks.{AreRead};
ghost use Rattle.cg_merge.specs.Merges.{Merges};

use crate::ends::ends_of;
use crate::faults::first_fault;
use crate::kinds::kinds_of;
use cg_base::{List, Memory};
use cg_desc::{DescFault, LaidBlock, MergedTop, TopDesc, XbarDesc};
use std::alloc::Global;

/// A top that was read, with what its nodes stand for, or the first fault of its files.
fn judged(alloc: Global, top: MergedTop) -> Result<MergedTop, DescFault>
    requires { AreRead top }
    ensures { Merges result (design_of top) }
{
    match first_fault(alloc, &top) {
        Ok(Some(fault)) => return Err(DescFault::Fault(fault)),
        Ok(None) => {}
        Err(Memory) => return Err(DescFault::Memory),
    }
    match ends_of(alloc, &top) {
        Ok(ends) => Ok(MergedTop { ends, ..top }),
        Err(Memory) => Err(DescFault::Memory),
    }
}

/// Merges a top with its crossbars, in the order in which it lists them, and the blocks of its types, in the order of their first use.
///
/// All three are as their readers give them. `DescFault::Fault` is the first rule that the files break on one another: at the earliest
/// file, then the earliest place, then that of the least number, then that with the least name. `DescFault::Memory` says nothing about
/// the files, which are dropped with it; it is also the answer where a node names an interface whose number takes more than 32 bits.
pub fn merge(
    alloc: Global,
    top: TopDesc,
    xbars: List<XbarDesc>,
    blocks: List<LaidBlock>,
) -> Result<MergedTop, DescFault>
    requires valid_top { IsValidTop top }
    requires files { AreItsFiles (record { top = top; xbars = xbars; blocks = blocks }) }
    requires valid_crossbars { AllOf IsValidCrossbar xbars }
    requires valid_blocks { AllOf IsValidLaidBlock blocks }
    ensures { Merges result (record { top = top; xbars = xbars; blocks = blocks }) }
{
    match kinds_of(alloc, top.insts.as_slice(), blocks.as_slice()) {
        Ok(kinds) => judged(
            alloc,
            MergedTop {
                top,
                xbars,
                blocks,
                kinds,
                ends: List::new(alloc),
            },
        ),
        Err(Memory) => Err(DescFault::Memory),
    }
}
