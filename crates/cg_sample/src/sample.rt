//! All files of the sample.

ghost use Rattle.std.specs.Prelude.{◌≡◌, ◌≤◌, ◌++◌, IfOk, OnOk, map};
ghost use Rattle.std.specs.List.{range_with_len};
ghost use Rattle.cg_sample.specs.Sample.{below_file, block_file, block_lines, block_name, crossbar_count, sample_files, type_count};

use crate::blocks::{cpu_file, type_file};
use crate::crossbars::{below_file, crossbar_count, main_file};
use crate::file::SampleFile;
use crate::top::{top_file, type_count};
use cg_base::{List, Memory};
use std::alloc::Global;

/// Adds the files of the crossbars below `main`.
fn add_crossbars(alloc: Global, files: &mut List<SampleFile>, number: u32) -> Result<(), Memory>
    requires { number ≤ 200 }
    ensures { OnOk result (files.new ≡ files.old ++ map (below_file number) (range_with_len 0 (crossbar_count number))) }
{
    for crossbar in 0..crossbar_count(number) {
        let file = below_file(alloc, number, crossbar)?;
        files.push(file)?;
    }
    Ok(())
}

/// Adds the files of the types of blocks that have a number.
fn add_types(alloc: Global, files: &mut List<SampleFile>, number: u32) -> Result<(), Memory>
    ensures { OnOk result (files.new ≡ files.old ++ map (λ j. block_file (block_name j) (block_lines j)) (range_with_len 0 (type_count number))) }
{
    for kind in 0..type_count(number) {
        let file = type_file(alloc, kind)?;
        files.push(file)?;
    }
    Ok(())
}

/// The files of the top with `number` instances, in the order in which a build reads them.
#[tactic(auto, unfolding(crate::specs::Sample::sample_files))]
pub fn sample_files(alloc: Global, number: u32) -> Result<List<SampleFile>, Memory>
    requires least { 1 ≤ number }
    requires most { number ≤ 200 }
    ensures { IfOk result (λ files. files ≡ sample_files number) }
{
    let mut files = List::new(alloc);
    files.push(top_file(alloc, number)?)?;
    files.push(main_file(alloc, number)?)?;
    add_crossbars(alloc, &mut files, number)?;
    files.push(cpu_file(alloc)?)?;
    add_types(alloc, &mut files, number)?;
    Ok(files)
}
