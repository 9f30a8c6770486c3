//! All that is written of a top.

ghost use Rattle.std.specs.Prelude.{◌≡◌, ◌++◌, ◌∷◌, [], ℕ, List, Option, IfOk, codes};
ghost use Rattle.cg_design.specs.Files.{numbered};
ghost use Rattle.cg_outputs.specs.Inner.{put_outputs};
ghost use Rattle.cg_chip.specs.Inner.{HasTexts, Tells, names_fault, own_texts, texts_of, top_fault};
ghost use Rattle.cg_chip.specs.Outputs.{completed_top, top_header, top_text};
ghost use Rattle.cg_chip.specs.Violations.{Builds, IsComputed};
ghost use Rattle.cg_chip.specs.declared.chip.Chip.{Chip};

use crate::blocks::put_blocks;
use crate::chip::Chip;
use crate::crossbars::put_crossbars;
use crate::fault::clash;
use crate::files_are_of_one_build;
use crate::top::{TopTexts, top_texts};
use cg_base::{List, Memory, Text};
use cg_desc::DescFault;
use cg_design::files_are_of_one_top;
use cg_manifest::manifest;
use cg_outputs::{OutFile, put_by_name};
use cg_sv::SvRegFault;
use std::alloc::Global;

/// A file of the top itself, whose name ends so.
fn top_file(alloc: Global, top: &str, ending: &str, text: Text) -> Result<OutFile, Memory>
    ensures { IfOk result (λ o. o ≡ record { name = codes "top_" ++ (top.now ++ ending.now); bytes = text }) }
{
    let name = format!(in alloc; "top_{top}{ending}")?;
    Ok(OutFile::of_text(Text::from_string(name), text))
}

/// The files of the top itself.
fn top_files(alloc: Global, top: &str, texts: TopTexts) -> Result<List<OutFile>, Memory>
    ensures { (c : Chip) → c.source.merged.top.name ≡ top.now → texts.module ≡ (top_text c).bytes → texts.header ≡ (top_header c).bytes → texts.completed ≡ (completed_top c).bytes
        → IfOk result (λ os. os ≡ put_outputs [] (own_texts c)) }
{
    let mut outputs = List::new(alloc);
    put_by_name(&mut outputs, top_file(alloc, top, ".sv", texts.module)?)?;
    put_by_name(&mut outputs, top_file(alloc, top, ".h", texts.header)?)?;
    put_by_name(
        &mut outputs,
        top_file(alloc, top, ".gen.hjson", texts.completed)?,
    )?;
    Ok(outputs)
}

/// The texts of a top itself, as files, or the first name that comes twice in them.
fn own_files(alloc: Global, chip: &Chip) -> Result<List<OutFile>, DescFault>
    requires { HasTexts chip.now }
    ensures made { IfOk result (λ os. os ≡ put_outputs [] (own_texts chip.now)) }
    ensures tells { Tells result (top_fault chip.now) }
{
    let top = &chip.source.merged.top;
    match top_texts(alloc, chip) {
        Ok(texts) => Ok(top_files(alloc, top.name.as_str(), texts)?),
        Err(SvRegFault::Clash { name }) => Err(clash(alloc, top.file, top.at, &name)),
        Err(SvRegFault::Memory) => Err(DescFault::Memory),
    }
}

/// All texts of a top, by name, or the first name that comes twice in them.
fn texts(alloc: Global, chip: &Chip) -> Result<List<OutFile>, DescFault>
    requires { HasTexts chip.now }
    ensures made { IfOk result (λ os. os ≡ put_outputs [] (texts_of chip.now)) }
    ensures tells { Tells result (names_fault chip.now) }
{
    let merged = &chip.source.merged;
    let mut outputs = own_files(alloc, chip)?;
    put_crossbars(
        alloc,
        &mut outputs,
        merged.xbars.as_slice(),
        chip.ranges.as_slice(),
    )?;
    put_blocks(
        alloc,
        &mut outputs,
        merged.blocks.as_slice(),
        chip.source.blocks.as_slice(),
    )?;
    Ok(outputs)
}

/// All that is written of a top, by name, and the manifest behind; or the first name that comes twice in what is written: in the top's
/// texts, or else in those of the first crossbar that has one, or else in those of the first block. The files are those of a build in
/// their order, with their numbers from 0, since of one phase's faults the one in the file of the lowest number is first.
pub fn build(alloc: Global, chip: &Chip) -> Result<List<OutFile>, DescFault>
    requires { HasTexts chip.now }
    ensures { (given : List (Option (List ℕ))) → IsComputed (numbered given) chip.now → Builds result (numbered given) }
{
    files_are_of_one_top();
    files_are_of_one_build();
    let mut outputs = texts(alloc, chip)?;
    let top = chip.source.merged.top.name.as_str();
    let manifest = manifest(alloc, top, outputs.as_slice())?;
    outputs.push(manifest)?;
    Ok(outputs)
}
