//! `topgen`: a whole top, from the files that its description names to all that is written of it.

ghost use Rattle.std.specs.Prelude.{◌≡◌, ◌++◌, ◌+◌, ◌∷◌, ◌<◌, ◌≤◌, [], ℕ, List, Option, IfOk, OnOk, Some, map, option_map, replicate};
ghost use Rattle.std.specs.FinMap as fin;
ghost use Rattle.cg_keep.specs.declared.keep.Built.{Built};
ghost use Rattle.cg_words.specs.Words.{IsCommand};
ghost use Rattle.cg_words.specs.declared.command.Command.TheVariants.{Topgen};
ghost use Rattle.cg_gen.specs.Due.{due_of_fault, due_of_outputs};
ghost use Rattle.cg_gen.specs.Gathering.{GatherEnds, TopEnds, shown};
ghost use Rattle.cg_gen.specs.Inner.{IsGiven, PlanEnds};
ghost use Rattle.cg_gen.specs.Reads.{Read, name_of_file, names_of};
ghost use Rattle.cg_gen.specs.Topgen.{StandsIn, as_kept, too_many, with_given};

use crate::due::Due;
use crate::given::{Given, read_file};
use crate::told::{fault_due, outputs_due};
use cg_base::{Gate, List, Memory, Steps, Store, Text};
use cg_deeds::Stop;
use cg_desc::Fault;
use cg_files::LIMIT;
use cg_keep::{Keep, KeepFault, a_build_is_one};
use cg_outputs::OutFile;
use std::alloc::Global;
use std::sync::ledger::Ledger;
use std::thread::Threads;

/// The folder of a file, up to and including its last slash, and its name there.
fn split_file(file: &str) -> (&str, &str)
    ensures { StandsIn file.now result.0.now result.1.now }
{
    match file.rfind('/') {
        Some(place) => file.split_at(place + 1),
        None => ("", file),
    }
}

/// The whole name of a file in a folder.
fn whole_name(alloc: Global, folder: &str, name: &str) -> Result<Text, Memory>
    ensures { IfOk result (λ t. t ≡ folder.now ++ name.now) }
{
    let mut file = Text::of(alloc, folder)?;
    file.add(name)?;
    Ok(file)
}

/// So many zeros.
fn zeros(alloc: Global, count: usize) -> Result<List<u8>, Memory>
    ensures { IfOk result (λ bytes. bytes ≡ replicate count 0) }
{
    let mut bytes = Vec::new(alloc);
    bytes.resize(count, 0)?;
    Ok(List::from_vec(bytes))
}

/// The bytes that are kept of a file that is too large.
fn too_many_bytes(alloc: Global) -> Result<List<u8>, Memory>
    ensures { IfOk result (λ bytes. bytes ≡ too_many) }
{
    zeros(alloc, LIMIT + 1)
}

/// The bytes that are kept of a file, where there is one.
fn kept_bytes(alloc: Global, given: Given) -> Result<Option<List<u8>>, Memory>
    ensures { (g : Option (List ℕ)) → IsGiven given g → IfOk result (λ bytes. bytes ≡ option_map as_kept g) }
{
    match given {
        Given::Absent => Ok(None),
        Given::Large => Ok(Some(too_many_bytes(alloc)?)),
        Given::Bytes(bytes) => {
            if bytes.len() > LIMIT {
                Ok(Some(too_many_bytes(alloc)?))
            } else {
                Ok(Some(bytes))
            }
        }
    }
}

/// Puts a file as the store gave it, where none of its name is kept.
fn put_given(alloc: Global, keep: &mut Keep, name: &str, given: Given) -> Result<(), Memory>
    ensures { (g : Option (List ℕ)) → IsGiven given g → OnOk result (keep.new ≡ record keep.old { files = with_given keep.old.files name.now (fin.get keep.old.files name.now) g }) }
{
    if keep.file(name).is_some() {
        return Ok(());
    }
    match kept_bytes(alloc, given)? {
        Some(bytes) => keep.put(Text::of(alloc, name)?, bytes),
        None => Ok(()),
    }
}

/// Reads a file of the folder, and puts it.
fn read_into<S: Store>(
    alloc: Global,
    keep: &mut Keep,
    folder: &str,
    name: &str,
    store: &mut S,
) -> Result<(), Stop>
    ensures ends { GatherEnds result folder.now (name.now ∷ []) (shown (S.content store.old) (S.asked store.old) (S.read_faults store.old)) (shown (S.content store.new) (S.asked store.new) (S.read_faults store.new)) keep.old keep.new }
    ensures same { S.content store.new ≡ S.content store.old }
    ensures changes { S.change_faults store.new ≡ S.change_faults store.old }
{
    let file = whole_name(alloc, folder, name)?;
    let given = read_file(alloc, file.as_str(), store)?;
    put_given(alloc, keep, name, given)?;
    Ok(())
}

/// Reads these files of the folder, in their order, and puts them.
fn read_all<S: Store>(
    alloc: Global,
    keep: &mut Keep,
    folder: &str,
    names: &[Text],
    store: &mut S,
) -> Result<(), Stop>
    ensures ends { GatherEnds result folder.now names.now (shown (S.content store.old) (S.asked store.old) (S.read_faults store.old)) (shown (S.content store.new) (S.asked store.new) (S.read_faults store.new)) keep.old keep.new }
    ensures same { S.content store.new ≡ S.content store.old }
    ensures changes { S.change_faults store.new ≡ S.change_faults store.old }
{
    for name in names {
        read_into(alloc, keep, folder, name.as_str(), store)?;
    }
    Ok(())
}

/// Reads the top's own file and those that it names, and puts them; gives the names of all, in their order.
fn read_top<S: Store>(
    alloc: Global,
    keep: &mut Keep,
    folder: &str,
    own: &str,
    store: &mut S,
) -> Result<List<Text>, Stop>
    requires { keep.old.top ≡ own.now }
    ensures ends { TopEnds result folder.now own.now (shown (S.content store.old) (S.asked store.old) (S.read_faults store.old)) (shown (S.content store.new) (S.asked store.new) (S.read_faults store.new)) keep.old keep.new }
    ensures same { S.content store.new ≡ S.content store.old }
    ensures changes { S.change_faults store.new ≡ S.change_faults store.old }
{
    read_into(alloc, keep, folder, own, store)?;
    let names = keep.wanted()?;
    read_all(alloc, keep, folder, &names.as_slice()[1..], store)?;
    Ok(names)
}

/// The whole name of the file of this number among these, or nothing where there is none.
fn numbered_name(alloc: Global, folder: &str, names: &[Text], number: u32) -> Result<Text, Memory>
    ensures { (reads : List Read) → names_of reads ≡ map (λ name. folder.now ++ name) names.now → IfOk result (λ t. t ≡ name_of_file reads number) }
{
    match names.get(number as usize) {
        Some(name) => whole_name(alloc, folder, name.as_str()),
        None => Ok(Text::new(alloc)),
    }
}

/// The line of a fault is due, of the file that has its number among these.
fn refused_due(alloc: Global, folder: &str, names: &[Text], fault: &Fault) -> Result<Due, Memory>
    ensures { (reads : List Read) → names_of reads ≡ map (λ name. folder.now ++ name) names.now → IfOk result (λ due. due ≡ due_of_fault reads fault.now) }
{
    let file = numbered_name(alloc, folder, names, fault.file)?;
    fault_due(alloc, file.as_str(), fault)
}

/// Copies of files, to be written.
fn copies(alloc: Global, files: &[OutFile]) -> Result<List<OutFile>, Memory>
    ensures { IfOk result (λ os. os ≡ files.now) }
{
    let mut copies = List::new(alloc);
    for file in files {
        copies.push(OutFile {
            name: file.name.copy()?,
            bytes: file.bytes.copy()?,
        })?;
    }
    Ok(copies)
}

/// What was last built is to be written into the folder.
fn built_due(alloc: Global, dir: &str, keep: &Keep) -> Result<Due, Memory>
    requires { (built : Built) × (keep.now.last ≡ Some built) }
    ensures { (built : Built) → keep.now.last ≡ Some built → IfOk result (λ due. due ≡ due_of_outputs dir.now built.files) }
{
    match keep.last_built() {
        Some(built) => {
            let outputs = copies(alloc, built.files.as_slice())?;
            outputs_due(alloc, dir, outputs)
        }
        None => unreachable!(),
    }
}

/// `topgen`: the top's own file is read, and the files that it names, and the first of all that they break is told, or all that is written of
/// them is written into the folder.
pub fn topgen<R: Threads + Sync, S: Store, G: Gate + Sync, L: Ledger>(
    rt: &R,
    alloc: Global,
    file: &str,
    dir: &str,
    workers: u8,
    store: &mut S,
    gate: &G,
    steps: &mut Steps<L>,
) -> Result<Due, Stop>
    requires some { 0 < workers }
    requires few { workers ≤ 64 }
    ensures ends { (words : List (List ℕ)) → IsCommand words (Topgen file.now dir.now workers) → PlanEnds result words (S.content store.old) (S.asked store.old) (S.asked store.new) (S.read_faults store.old) (S.read_faults store.new) }
    ensures same { S.content store.new ≡ S.content store.old }
    ensures changes { S.change_faults store.new ≡ S.change_faults store.old }
    ensures steps { steps.new ≡ steps.old }
{
    a_build_is_one();
    let (folder, own) = split_file(file);
    let mut keep = Keep::new(alloc, Text::of(alloc, own)?)?;
    let names = read_top(alloc, &mut keep, folder, own, store)?;
    match keep.rebuild(rt, workers, gate, steps) {
        Ok(()) => Ok(built_due(alloc, dir, &keep)?),
        Err(KeepFault::Refused(fault)) => {
            Ok(refused_due(alloc, folder, names.as_slice(), &fault)?)
        }
        Err(KeepFault::Memory) => Err(Stop::Memory),
    }
}
