//! `sample`: a large top that a number makes, built in memory, and what there is of it, counted.

ghost use Rattle.std.specs.Prelude.{◌≡◌, ◌≤◌, ◌++◌, ◌∷◌, [], ℕ, List, IfOk, OnOk, Some, codes, length};
ghost use Rattle.std.specs.Fmt.{decimal};
ghost use Rattle.hex.specs.Hex.{encode_lower};
ghost use Rattle.sha2.specs.Sha256.{sha256};
ghost use Rattle.cg_desc.specs.Merged.{IsValidMerged};
ghost use Rattle.cg_irq.specs.Instances.{HasBlocks};
ghost use Rattle.cg_irq.specs.Violations.{IsNumbering};
ghost use Rattle.cg_irq.specs.declared.bits.IrqMap.{IrqMap};
ghost use Rattle.cg_space.specs.Rows.{AreRows};
ghost use Rattle.cg_space.specs.declared.row.Row.{Row};
ghost use Rattle.cg_outputs.specs.declared.out_file.OutFile.{OutFile};
ghost use Rattle.cg_keep.specs.Files.{IsBuilt};
ghost use Rattle.cg_keep.specs.declared.keep.Built.{Built};
ghost use Rattle.cg_gen.specs.Sample.{IsSampleDue, counts_text, due_of_counts, due_of_refusal, files_of_sample, kept_sample, name_at, sample_name, with_files, word_line};

use crate::due::{Due, Status};
use crate::told::fault_due;
use cg_base::{Gate, List, Memory, Steps, Text};
use cg_deeds::{Deed, Stream};
use cg_desc::{Fault, MergedTop};
use cg_irq::{merged_has_blocks, numbers};
use cg_keep::{Keep, KeepFault};
use cg_outputs::OutFile;
use cg_sample::{SampleFile, sample_files};
use cg_space::rows;
use sha2::{Digest, Sha256};
use std::alloc::Global;
use std::sync::ledger::Ledger;
use std::thread::Threads;

/// How many workers build the sample.
const WORKERS: u8 = 4;

/// What there is of a top that was built, and its manifest's digest.
#[derive(Drop)]
pub struct Counts {
    pub instances: usize,
    pub crossbars: usize,
    pub rows: usize,
    pub interrupts: usize,
    pub outputs: usize,
    pub digest: Text,
}

/// Puts files, in their order.
fn put_all(keep: &mut Keep, files: List<SampleFile>) -> Result<(), Memory>
    ensures { OnOk result (keep.new ≡ record keep.old { files = with_files keep.old.files files }) }
{
    for file in files.into_vec() {
        let SampleFile { name, bytes } = file;
        keep.put(name, bytes)?;
    }
    Ok(())
}

/// The large top of a number from 1 to 200: its files are put, and nothing is built of them.
pub fn sample(alloc: Global, number: u32) -> Result<Keep, Memory>
    requires least { 1 ≤ number }
    requires most { number ≤ 200 }
    ensures { IfOk result (λ keep. keep ≡ kept_sample number) }
{
    let own = Text::of(alloc, "sample.hjson")?;
    let mut keep = Keep::new(alloc, own)?;
    put_all(&mut keep, sample_files(alloc, number)?)?;
    Ok(keep)
}

/// The digest of the last of the files that were built, which is the manifest.
fn digest_of(alloc: Global, files: &[OutFile]) -> Result<Text, Memory>
    ensures { (texts : List OutFile) (manifest : OutFile) → files.now ≡ texts ++ manifest ∷ [] → IfOk result (λ digest. digest ≡ encode_lower (sha256 manifest.bytes)) }
{
    let digest = match files.last() {
        Some(manifest) => Sha256::digest(manifest.bytes.as_slice()),
        None => return Ok(Text::new(alloc)),
    };
    Ok(Text::from_string(hex::encode(alloc, digest)?))
}

/// What there is of a merged top and of what was built of it. It breaks no rule, so it is numbered and mapped.
fn counts_of(alloc: Global, top: &MergedTop, outputs: usize, digest: Text) -> Result<Counts, Memory>
    requires valid { IsValidMerged top.now }
    requires has_blocks { HasBlocks top.now }
    ensures instances { IfOk result (λ c. c.instances ≡ length top.now.top.insts) }
    ensures crossbars { IfOk result (λ c. c.crossbars ≡ length top.now.xbars) }
    ensures rows { IfOk result (λ c. (rows : List Row) × AreRows top.now rows × (c.rows ≡ length rows)) }
    ensures interrupts { IfOk result (λ c. (irq : IrqMap) × IsNumbering top.now irq × (c.interrupts ≡ length irq.intr)) }
    ensures written { IfOk result (λ c. (c.outputs ≡ outputs) × (c.digest ≡ digest)) }
{
    let Ok(rows) = rows(alloc, top) else {
        return Err(Memory);
    };
    let Ok(irq) = numbers(alloc, top) else {
        return Err(Memory);
    };
    Ok(Counts {
        instances: top.top.insts.len(),
        crossbars: top.xbars.len(),
        rows: rows.len(),
        interrupts: irq.intr.len(),
        outputs,
        digest,
    })
}

/// Adds a line of a word and a number.
fn add_count(text: &mut Text, alloc: Global, word: &str, count: usize) -> Result<(), Memory>
    ensures { OnOk result (text.new ≡ text.old ++ word_line word.now (decimal count)) }
{
    let line = format!(in alloc; "{word} {count}\n")?;
    text.add(&line)?;
    Ok(())
}

/// Adds the line of the manifest's digest.
fn add_digest(text: &mut Text, alloc: Global, digest: &str) -> Result<(), Memory>
    ensures { OnOk result (text.new ≡ text.old ++ word_line (codes "sha256") digest.now) }
{
    let line = format!(in alloc; "sha256 {digest}\n")?;
    text.add(&line)?;
    Ok(())
}

/// The six lines.
#[tactic(auto, unfolding(crate::specs::Sample::counts_text), using(crate::proofs::Lists::appends))]
fn counts_text(alloc: Global, counts: &Counts) -> Result<Text, Memory>
    ensures { IfOk result (λ text. text ≡ counts_text counts.now) }
{
    let mut text = Text::new(alloc);
    add_count(&mut text, alloc, "instances", counts.instances)?;
    add_count(&mut text, alloc, "crossbars", counts.crossbars)?;
    add_count(&mut text, alloc, "rows", counts.rows)?;
    add_count(&mut text, alloc, "interrupts", counts.interrupts)?;
    add_count(&mut text, alloc, "outputs", counts.outputs)?;
    add_digest(&mut text, alloc, counts.digest.as_str())?;
    Ok(text)
}

/// The counts are told.
fn counts_due(alloc: Global, counts: &Counts) -> Result<Due, Memory>
    ensures { IfOk result (λ due. due ≡ due_of_counts counts.now) }
{
    let line = counts_text(alloc, counts)?;
    let mut deeds = List::new(alloc);
    deeds.push(Deed::Say {
        stream: Stream::Out,
        line,
    })?;
    Ok(Due {
        deeds,
        status: Status::Built,
    })
}

/// What is due for files that were built: what there is of them is told.
fn built_due(alloc: Global, keep: &Keep) -> Result<Due, Memory>
    ensures { (n : ℕ) (built : Built) → keep.now.top ≡ sample_name → keep.now.files ≡ files_of_sample n → keep.now.last ≡ Some built
        → IsBuilt sample_name (files_of_sample n) built.files → IfOk result (λ due. IsSampleDue n due) }
{
    merged_has_blocks();
    let Some(built) = keep.last_built() else {
        return Err(Memory);
    };
    let Ok(source) = keep.source() else {
        return Err(Memory);
    };
    let files = built.files.as_slice();
    let digest = digest_of(alloc, files)?;
    let counts = counts_of(alloc, &source.merged, files.len(), digest)?;
    counts_due(alloc, &counts)
}

/// What is due for files of these names that were refused.
fn refused_due(alloc: Global, names: &[Text], fault: &Fault) -> Result<Due, Memory>
    ensures { IfOk result (λ due. due ≡ due_of_refusal (name_at names.now fault.now.file) fault.now) }
{
    match names.get(fault.file as usize) {
        Some(name) => fault_due(alloc, name.as_str(), fault),
        None => fault_due(alloc, "", fault),
    }
}

/// `sample`: the files of the large top of a number are built in memory, and what there is of it is told.
pub fn sample_due<R: Threads + Sync, G: Gate + Sync, L: Ledger>(
    rt: &R,
    alloc: Global,
    number: u32,
    gate: &G,
    steps: &mut Steps<L>,
) -> Result<Due, Memory>
    requires least { 1 ≤ number }
    requires most { number ≤ 200 }
    ensures due { IfOk result (λ due. IsSampleDue number due) }
    ensures steps { steps.new ≡ steps.old }
{
    let mut keep = sample(alloc, number)?;
    let names = keep.wanted()?;
    match keep.rebuild(rt, WORKERS, gate, steps) {
        Ok(()) => built_due(alloc, &keep),
        Err(KeepFault::Refused(fault)) => refused_due(alloc, names.as_slice(), &fault),
        Err(KeepFault::Memory) => Err(Memory),
    }
}
