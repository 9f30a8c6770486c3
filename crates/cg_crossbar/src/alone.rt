//! A crossbar's file, up to the text of a crossbar that stands alone.

ghost use Rattle.std.specs.Prelude.{◌≡◌, [], ◌∷◌, IfOk};
ghost use Rattle.cg_desc.specs.Crossbar.{IsValidCrossbar};
ghost use Rattle.cg_desc.specs.Merged.{alone};
ghost use Rattle.cg_finding.specs.Refusal.{Names};
ghost use Rattle.cg_finding.specs.Rules as rules;
ghost use Rattle.cg_files.specs.Files.{File, some_file};
ghost use Rattle.cg_desc.specs.Ranges.{AreRangesOf};
ghost use Rattle.cg_crossbar.specs.Breaks.{FindsAlone, IsOutputOf};
ghost use Rattle.cg_crossbar.specs.Outputs.{written_ranges};
ghost use Rattle.cg_crossbar.specs.Stages.{Describes};

use crate::description::read_crossbar;
use crate::output::crossbar_output;
use cg_base::{List, Memory, Text};
use cg_desc::{At, DescFault, MergedTop, NodeRanges, XbarDesc};
use cg_finding::{Found, refusal};
use cg_merge::merge_one;
use cg_outputs::OutFile;
use cg_space::{check, ranges};
use cg_sv::SvRegFault;
use std::alloc::Global;

/// Two names of what is written are the same.
fn clash(alloc: Global, file: u32, at: At, name: &Text) -> DescFault
    ensures { Names result file (rules.names_clash at name.now) }
{
    refusal(alloc, Found::names_clash(at, name.as_str()), file)
}

/// The text of a described crossbar whose written ranges fit, or the first name that comes twice in it.
fn text_of(
    alloc: Global,
    file: u32,
    xbar: &XbarDesc,
    ranges: &List<NodeRanges>,
) -> Result<OutFile, DescFault>
    requires valid { IsValidCrossbar xbar.now }
    requires fit { AreRangesOf xbar.now ranges.now }
    requires written { ranges.now ≡ written_ranges xbar.now }
    ensures { (f : File) → f.number ≡ file → Describes f xbar.now → FindsAlone result f (λ o. IsOutputOf f o) }
{
    match crossbar_output(alloc, xbar, ranges) {
        Ok(output) => Ok(output),
        Err(SvRegFault::Clash { name }) => Err(clash(alloc, file, xbar.at, &name)),
        Err(SvRegFault::Memory) => Err(DescFault::Memory),
    }
}

/// The text of a merged top of one crossbar alone.
fn output_of(
    alloc: Global,
    file: u32,
    top: &MergedTop,
    xbar: &XbarDesc,
) -> Result<OutFile, DescFault>
    requires valid { IsValidCrossbar xbar.now }
    requires alone { top.now ≡ alone xbar.now }
    ensures { (f : File) → f.number ≡ file → Describes f xbar.now → FindsAlone result f (λ o. IsOutputOf f o) }
{
    match check(alloc, top) {
        Ok(()) => {}
        Err(refusal) => return Err(refusal),
    }
    match ranges(alloc, top, 0) {
        Ok(ranges) => text_of(alloc, file, xbar, &ranges),
        Err(Memory) => Err(DescFault::Memory),
    }
}

/// The text of the crossbar that a file describes and that stands alone, or the first of all that the file breaks.
///
/// `file` is the file's number in the build, and `before` how many bytes the files before it have together.
pub fn read_alone(alloc: Global, file: u32, before: u64, bytes: &[u8]) -> Result<OutFile, DescFault>
    ensures { FindsAlone result (some_file file before bytes.now) (λ o. IsOutputOf (some_file file before bytes.now) o) }
{
    let xbar = match read_crossbar(alloc, file, before, bytes) {
        Ok(xbar) => xbar,
        Err(refusal) => return Err(refusal),
    };
    let top = match merge_one(alloc, xbar) {
        Ok(top) => top,
        Err(Memory) => return Err(DescFault::Memory),
    };
    output_of(alloc, file, &top, &top.xbars.as_slice()[0])
}
