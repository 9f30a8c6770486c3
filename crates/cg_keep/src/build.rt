//! A build of files from nothing.

ghost use Rattle.std.specs.Prelude.{◌≡◌, ℕ, List, Option, map, option_map, IfOk};
ghost use Rattle.std.specs.FinMap as fin;
ghost use Rattle.cg_desc.specs.Merged.{IsMerged};
ghost use Rattle.cg_desc.specs.Top.{IsValidTop};
ghost use Rattle.cg_files.specs.Files.{File};
ghost use Rattle.cg_space.specs.Violations.{NoViolation};
ghost use Rattle.cg_design.specs.Breaks.{DescribesTop};
ghost use Rattle.cg_design.specs.Files.{given_file, numbered, size_of};
ghost use Rattle.cg_design.specs.Violations.{IsSourceOf};
ghost use Rattle.cg_chip.specs.Violations.{Builds as BuildsFiles};
ghost use Rattle.cg_keep.specs.Kept.{Builds, Describes};

use crate::names::file_names;
use cg_base::{FileMap, List, Memory, Text};
use cg_chip::{build as build_chip, chip_of};
use cg_desc::DescFault;
use cg_design::{DesignSource, TopSource, design, files_are_of_one_top, read_top};
use cg_outputs::OutFile;
use cg_topread::types_of;
use std::alloc::Global;

/// What there is of the files of these names.
fn given_files<'a>(
    alloc: Global,
    files: &'a FileMap,
    names: &[Text],
) -> Result<Vec<Option<&'a [u8]>>, Memory>
    ensures { IfOk result (λ given. map (option_map (λ b. b.now)) given.items ≡ map (fin.get files.entry.now) names.now) }
{
    let mut given = Vec::new(alloc);
    for name in names {
        given.push(files.get(name.as_str()))?;
    }
    Ok(given)
}

/// How many bytes there are.
fn size_of(given: Option<&[u8]>) -> u64
    ensures { result ≡ size_of (option_map (λ b. b.now) given.entry) }
{
    match given {
        Some(bytes) => bytes.len() as u64,
        None => 0,
    }
}

/// What the files of a top describe together, whose own file describes it so, or the first of all that they break.
fn source_of_top(
    alloc: Global,
    files: &FileMap,
    own: Option<&[u8]>,
    source: TopSource,
) -> Result<DesignSource, DescFault>
    requires valid { IsValidTop source.top }
    requires described { DescribesTop (given_file 0 0 (option_map (λ b. b.now) own)) source.tree source.top }
    ensures describes { (top : List ℕ) → fin.get files.now top ≡ option_map (λ b. b.now) own.entry → Describes result top files.now }
    ensures merged { IfOk result (λ s. IsMerged s.merged) }
    ensures spaced { IfOk result (λ s. NoViolation s.merged) }
{
    files_are_of_one_top();
    let types = types_of(alloc, &source.top)?;
    let names = file_names(alloc, &source.top, &types)?;
    let others = given_files(alloc, files, names.as_slice())?;
    design(alloc, source, size_of(own), &types, others.as_slice())
}

/// What the files of the top whose own file has this name describe together, or the first of all that they break.
pub(crate) fn source_of(
    alloc: Global,
    files: &FileMap,
    top: &str,
) -> Result<DesignSource, DescFault>
    ensures describes { Describes result top.now files.now }
    ensures merged { IfOk result (λ s. IsMerged s.merged) }
    ensures spaced { IfOk result (λ s. NoViolation s.merged) }
{
    let own = files.get(top);
    match read_top(alloc, own) {
        Ok(source) => source_of_top(alloc, files, own, source),
        Err(refused) => Err(refused),
    }
}

/// All that is written of what the files describe together, or the first of all that they break behind that.
fn build_source(alloc: Global, source: DesignSource) -> Result<List<OutFile>, DescFault>
    requires merged { IsMerged source.merged }
    requires spaced { NoViolation source.merged }
    requires described { (files : List File) × IsSourceOf files source }
    ensures { (given : List (Option (List ℕ))) → IsSourceOf (numbered given) source → BuildsFiles result (numbered given) }
{
    match chip_of(alloc, source) {
        Ok(chip) => build_chip(alloc, &chip),
        Err(refused) => Err(refused),
    }
}

/// All that is written of the files of the top whose own file has this name, or the first of all that they break.
pub(crate) fn build(alloc: Global, files: &FileMap, top: &str) -> Result<List<OutFile>, DescFault>
    ensures { Builds result top.now files.now }
{
    match source_of(alloc, files, top) {
        Ok(source) => build_source(alloc, source),
        Err(refused) => Err(refused),
    }
}
