//! A build of the files that are kept, as the session holds its answer.

ghost use Rattle.std.specs.Prelude.{◌≡◌, ◌<◌, ◌≤◌, IfOk};
ghost use Rattle.cg_session.specs.Answers.{Answer, Answers, name_of_file, refused_line};
ghost use Rattle.cg_session.specs.Play.{stored, stored_all};
ghost use Rattle.cg_session.specs.Turns.{IsHeld};

use cg_base::{Gate, List, Memory, Steps, Text};
use cg_deeds::stored_name;
use cg_desc::{Fault, fault_text};
use cg_keep::{Keep, KeepFault};
use cg_outputs::OutFile;
use std::alloc::Global;
use std::sync::ledger::Ledger;
use std::thread::Threads;

/// What a build answers: all outputs, under their names in the store, or the line of the first fault.
#[derive(Drop)]
pub enum BuildAnswer {
    Built(List<OutFile>),
    Refused(Text),
}

/// A copy of an output, under its name in the store.
fn stored(alloc: Global, dir: &str, file: &OutFile) -> Result<OutFile, Memory>
    ensures { IfOk result (λ o. o ≡ stored dir.now file.now) }
{
    Ok(OutFile {
        name: stored_name(alloc, dir, file.name.as_str())?,
        bytes: file.bytes.copy()?,
    })
}

/// Copies of outputs, under their names in the store.
fn stored_all(alloc: Global, dir: &str, files: &[OutFile]) -> Result<List<OutFile>, Memory>
    ensures { IfOk result (λ os. os ≡ stored_all dir.now files.now) }
{
    let mut copies = List::new(alloc);
    for file in files {
        copies.push(stored(alloc, dir, file)?)?;
    }
    Ok(copies)
}

/// The name of the file of this number.
fn name_of_file(names: &[Text], number: u32) -> &str
    ensures { result.now ≡ name_of_file names.now number }
{
    match names.get(number as usize) {
        Some(name) => name.as_str(),
        None => "",
    }
}

/// The line of a fault, of the file that has its number among these.
fn refused_line(alloc: Global, names: &[Text], fault: &Fault) -> Result<Text, Memory>
    ensures { IfOk result (λ t. t ≡ refused_line names.now fault.now) }
{
    let mut line = fault_text(alloc, fault, name_of_file(names, fault.file))?;
    line.add("\n")?;
    Ok(line)
}

/// Builds the files that are kept. The copy of the outputs is made here, before anything is written.
pub fn build<R: Threads + Sync, G: Gate + Sync, L: Ledger>(
    rt: &R,
    alloc: Global,
    workers: u8,
    keep: &mut Keep,
    dir: &str,
    gate: &G,
    steps: &mut Steps<L>,
) -> Result<BuildAnswer, Memory>
    requires some { 0 < workers }
    requires few { workers ≤ 64 }
    ensures answer { IfOk result (λ a. (answer : Answer) × Answers keep.old.top keep.old.files answer × IsHeld dir.now a answer) }
    ensures files { keep.new.files ≡ keep.old.files }
    ensures top { keep.new.top ≡ keep.old.top }
    ensures steps { steps.new ≡ steps.old }
{
    match keep.rebuild(rt, workers, gate, steps) {
        Ok(()) => match keep.last_built() {
            Some(built) => Ok(BuildAnswer::Built(stored_all(alloc, dir, built.files.as_slice())?)),
            None => unreachable!(),
        },
        Err(KeepFault::Refused(fault)) => {
            let names = keep.wanted()?;
            Ok(BuildAnswer::Refused(refused_line(alloc, names.as_slice(), &fault)?))
        }
        Err(KeepFault::Memory) => Err(Memory),
    }
}
