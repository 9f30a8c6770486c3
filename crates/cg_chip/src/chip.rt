//! What is computed of a merged top before a text is written.

ghost use Rattle.std.specs.Prelude.{◌≡◌, ◌≤◌, ℕ, List, length, IfOk, slice_get, Some};
ghost use Rattle.cg_desc.specs.Merged.{IsMerged};
ghost use Rattle.cg_files.specs.Files.{File};
ghost use Rattle.cg_space.specs.Answers.{AreNodeRanges};
ghost use Rattle.cg_space.specs.Violations.{NoViolation};
ghost use Rattle.cg_design.specs.Violations.{IsSourceOf};
ghost use Rattle.cg_chip.specs.Chip.{AreRangesOfAll};
ghost use Rattle.cg_chip.specs.Inner.{AllFit, HasTexts};
ghost use Rattle.cg_chip.specs.Violations.{Computes};

use cg_base::{List, Memory};
use cg_clkrst::{Tie, ties};
use cg_desc::{DescFault, MergedTop, NodeRanges};
use cg_design::{DesignSource, files_are_of_one_top};
use cg_irq::{IrqMap, merged_has_blocks, numbers};
use cg_jsonspec::documents_are_sayable;
use cg_pinmux::{PinMap, pins};
use cg_space::ranges;
use cg_topspec::few_bits_follow;
use std::alloc::Global;

/// The ranges of each node of a crossbar.
#[derive(Drop)]
pub struct XbarRanges {
    pub ranges: List<NodeRanges>,
}

/// A merged top with its trees, and what is computed of it: the ranges of its crossbars, in their order, the numbers of interrupts and
/// alerts, the sources of clocks and resets, and the pins.
#[derive(Drop)]
pub struct Chip {
    pub source: DesignSource,
    pub ranges: List<XbarRanges>,
    pub irq: IrqMap,
    pub ties: List<Tie>,
    pub pins: PinMap,
}

/// The ranges of the nodes of all crossbars.
fn ranges_of(alloc: Global, top: &MergedTop) -> Result<List<XbarRanges>, Memory>
    requires merged { IsMerged top.now }
    requires few { length top.now.xbars ≤ 16 }
    requires unbroken { NoViolation top.now }
    ensures are { IfOk result (λ rs. AreRangesOfAll top.now rs) }
    ensures fit { IfOk result (λ rs. AllFit top.now.xbars rs) }
{
    let mut all = List::new(alloc);
    for xbar in 0..top.xbars.len() {
        let ranges = ranges(alloc, top, xbar as u32)?;
        all.push(XbarRanges { ranges })?;
    }
    Ok(all)
}

/// What is computed of the top that files describe, or the first of all that they break up to there: too many interrupts or alerts,
/// then clocks and resets without a source, then signals that fit no pin.
pub fn chip_of(alloc: Global, source: DesignSource) -> Result<Chip, DescFault>
    requires merged { IsMerged source.merged }
    requires unbroken { NoViolation source.merged }
    ensures computes { (files : List File) → IsSourceOf files source → Computes result files }
    ensures has_texts { (files : List File) → IsSourceOf files source → IfOk result (λ c. HasTexts c) }
{
    merged_has_blocks();
    files_are_of_one_top();
    documents_are_sayable();
    few_bits_follow();
    let irq = match numbers(alloc, &source.merged) {
        Ok(irq) => irq,
        Err(refused) => return Err(refused),
    };
    let ties = match ties(alloc, &source.merged) {
        Ok(ties) => ties,
        Err(refused) => return Err(refused),
    };
    let pins = match pins(alloc, &source.merged) {
        Ok(pins) => pins,
        Err(refused) => return Err(refused),
    };
    match ranges_of(alloc, &source.merged) {
        Ok(ranges) => Ok(Chip {
            source,
            ranges,
            irq,
            ties,
            pins,
        }),
        Err(Memory) => Err(DescFault::Memory),
    }
}
