//! What is due for a fault, for outputs, and for words that are no command.

ghost use Rattle.std.specs.Prelude.{◌≡◌, map, length, IfOk};
ghost use Rattle.cg_desc.specs.FaultText.{fault_line};
ghost use Rattle.cg_outputs.specs.Outputs.{AreOutputs};
ghost use Rattle.cg_gen.specs.declared.due.Status.TheVariants.{Refused};
ghost use Rattle.cg_deeds.specs.Told.{stored_name};
ghost use Rattle.cg_deeds.specs.Told.{line, built_line};
ghost use Rattle.cg_gen.specs.Due.{usage, write_of, due_of_line, due_of_outputs, due_of_no_command};

use crate::due::{Due, Status};
use cg_base::{List, Memory, Text};
use cg_deeds::{Deed, Stream, built_line, stored_name};
use cg_desc::{Fault, fault_text};
use cg_outputs::OutFile;
use std::alloc::Global;

/// A single line is due.
fn line_due(alloc: Global, line: Text, status: Status) -> Result<Due, Memory>
    ensures { IfOk result (λ d. d ≡ due_of_line line status) }
{
    let mut deeds = List::new(alloc);
    deeds.push(Deed::Say {
        stream: Stream::Err,
        line,
    })?;
    Ok(Due { deeds, status })
}

/// The line of a fault is due, of the file of this name.
pub fn fault_due(alloc: Global, file: &str, fault: &Fault) -> Result<Due, Memory>
    ensures { IfOk result (λ d. d ≡ due_of_line (line (fault_line file.now fault.now)) Refused) }
{
    let mut line = fault_text(alloc, fault, file)?;
    line.add("\n")?;
    line_due(alloc, line, Status::Refused)
}

#[tactic(auto, unfolding(crate::specs::Due::usage))]
fn usage() -> &'static str
    ensures { result.now ≡ usage }
{
    "usage: regtool (-r|-D|-j) -t DIR FILE\nusage: tlgen -t FILE -o DIR\nusage: topgen -t FILE -o DIR -w N\nusage: session -t FILE -o DIR -w N\nusage: probe DIR HOST ADDR\nusage: sample NUMBER\n"
}

/// The usage text is due.
pub fn usage_due(alloc: Global) -> Result<Due, Memory>
    ensures { IfOk result (λ d. d ≡ due_of_no_command) }
{
    let line = Text::of(alloc, usage())?;
    line_due(alloc, line, Status::NoCommand)
}

/// A file is to be written into the folder.
fn write_of(alloc: Global, dir: &str, output: OutFile) -> Result<Deed, Memory>
    ensures { IfOk result (λ d. d ≡ write_of dir.now output) }
{
    let OutFile { name, bytes } = output;
    Ok(Deed::Write {
        name: stored_name(alloc, dir, name.as_str())?,
        bytes,
    })
}

/// The files are to be written into the folder.
fn writes(alloc: Global, dir: &str, outputs: List<OutFile>) -> Result<List<Deed>, Memory>
    ensures { IfOk result (λ ds. ds ≡ map (write_of dir.now) outputs) }
{
    let mut deeds = List::new(alloc);
    for output in outputs.into_vec() {
        deeds.push(write_of(alloc, dir, output)?)?;
    }
    Ok(deeds)
}

/// A single output.
#[tactic(auto, using(crate::proofs::OneFile::alone_are))]
pub fn alone(alloc: Global, output: OutFile) -> Result<List<OutFile>, Memory>
    ensures { IfOk result (λ os. AreOutputs (λ o. o ≡ output) os) }
{
    let mut outputs = List::new(alloc);
    outputs.push(output)?;
    Ok(outputs)
}

/// The outputs are to be written, and then their number told.
pub fn outputs_due(alloc: Global, dir: &str, outputs: List<OutFile>) -> Result<Due, Memory>
    ensures { IfOk result (λ d. d ≡ due_of_outputs dir.now outputs) }
{
    let line = built_line(alloc, outputs.len(), 0)?;
    let mut deeds = writes(alloc, dir, outputs)?;
    deeds.push(Deed::Say {
        stream: Stream::Out,
        line,
    })?;
    Ok(Due {
        deeds,
        status: Status::Built,
    })
}
