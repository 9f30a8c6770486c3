//! The texts of a top's crossbars.

ghost use Rattle.std.specs.Prelude.{◌≡◌, ℕ, List, length, IfOk, OnOk, Some, slice_get};
ghost use Rattle.cg_desc.specs.Crossbar.{IsValidCrossbar};
ghost use Rattle.cg_desc.specs.Ranges.{AreRangesOf};
ghost use Rattle.cg_crossbar.specs.Outputs.{crossbar_output};
ghost use Rattle.cg_outputs.specs.Inner.{put_outputs};
ghost use Rattle.cg_chip.specs.Inner.{AllFit, Tells, crossbar_fault, crossbar_texts, crossbars_fault};

use crate::chip::XbarRanges;
use crate::fault::clash;
use cg_base::{List, Memory};
use cg_crossbar::crossbar_output;
use cg_desc::{DescFault, XbarDesc};
use cg_outputs::{OutFile, put_by_name};
use cg_sv::SvRegFault;
use std::alloc::Global;

/// The text of a crossbar, or the first name that comes twice in it.
fn crossbar_text(alloc: Global, xbar: &XbarDesc, ranges: &XbarRanges) -> Result<OutFile, DescFault>
    requires valid { IsValidCrossbar xbar.now }
    requires ranges { AreRangesOf xbar.now ranges.now.ranges }
    ensures made { IfOk result (λ o. o ≡ crossbar_output xbar.now ranges.now.ranges) }
    ensures tells { Tells result (crossbar_fault xbar.now ranges.now) }
{
    match crossbar_output(alloc, xbar, &ranges.ranges) {
        Ok(output) => Ok(output),
        Err(SvRegFault::Clash { name }) => Err(clash(alloc, xbar.file, xbar.at, &name)),
        Err(SvRegFault::Memory) => Err(DescFault::Memory),
    }
}

/// Puts the texts of crossbars among others, each in the place of its name; or tells the first name that comes twice in the first crossbar
/// that has one.
pub fn put_crossbars(
    alloc: Global,
    outputs: &mut List<OutFile>,
    xbars: &[XbarDesc],
    ranges: &[XbarRanges],
) -> Result<(), DescFault>
    requires count { length ranges.now ≡ length xbars.now }
    requires fit { AllFit xbars.now ranges.now }
    ensures put { OnOk result (outputs.new ≡ put_outputs outputs.old (crossbar_texts xbars.now ranges.now)) }
    ensures tells { Tells result (crossbars_fault xbars.now ranges.now) }
{
    for number in 0..xbars.len() {
        match crossbar_text(alloc, &xbars[number], &ranges[number]) {
            Ok(text) => match put_by_name(outputs, text) {
                Ok(()) => {}
                Err(Memory) => return Err(DescFault::Memory),
            },
            Err(refused) => return Err(refused),
        }
    }
    Ok(())
}
