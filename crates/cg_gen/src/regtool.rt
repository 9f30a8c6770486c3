//! `regtool`: one block, from its description to its register texts, its header or its completed description.

ghost use Rattle.std.specs.Prelude.{◌≡◌, [], ◌∷◌, IfOk, Option, List, ℕ};
ghost use Rattle.cg_files.specs.Files.{File};
ghost use Rattle.cg_outputs.specs.Outputs.{AreOutputs};
ghost use Rattle.cg_block.specs.Breaks.{FindsInFile};
ghost use Rattle.cg_block.specs.Unit.{IsUnitOf};
ghost use Rattle.cg_words.specs.declared.command.Command.TheVariants.{Regtool};
ghost use Rattle.cg_gen.specs.Reads.{read};
ghost use Rattle.cg_gen.specs.Regtool.{IsAskedFor, block};
ghost use Rattle.cg_gen.specs.Inner.{IsGiven, IsDueFrom, only_file};

use crate::due::Due;
use crate::given::Given;
use crate::told::{alone, fault_due, outputs_due};
use cg_base::{List, Memory};
use cg_block::{BlockUnit, completed_output, header_output, read_block, register_outputs};
use cg_desc::DescFault;
use cg_files::{absent_file, large_file};
use cg_outputs::OutFile;
use cg_words::RegOut;
use std::alloc::Global;

/// The unit of the only file of a build.
fn unit_of(alloc: Global, given: &Given) -> Result<BlockUnit, DescFault>
    ensures { (g : Option (List ℕ)) → IsGiven given.now g → FindsInFile result (only_file g) (λ unit. IsUnitOf (only_file g) unit) }
{
    match given {
        Given::Absent => Err(absent_file(alloc, 0)),
        Given::Large => Err(large_file(alloc, 0)),
        Given::Bytes(bytes) => read_block(alloc, 0, 0, bytes.as_slice()),
    }
}

/// The outputs that are asked for.
fn outputs_of(alloc: Global, made: RegOut, unit: &BlockUnit) -> Result<List<OutFile>, Memory>
    requires { (file : File) × IsUnitOf file unit.now }
    ensures { IfOk result (λ os. AreOutputs (IsAskedFor made (block unit.now.tree unit.now.laid)) os) }
{
    match made {
        RegOut::Registers => register_outputs(alloc, unit),
        RegOut::Header => alone(alloc, header_output(alloc, unit)?),
        RegOut::Completed => alone(alloc, completed_output(alloc, unit)?),
    }
}

/// What is due for a description: its first fault is told, or its outputs are written into the folder.
pub fn regtool_due(
    alloc: Global,
    made: RegOut,
    dir: &str,
    file: &str,
    given: &Given,
) -> Result<Due, Memory>
    ensures { (g : Option (List ℕ)) → IsGiven given.now g → IfOk result (λ due. IsDueFrom (Regtool made dir.now file.now) (read file.now g ∷ []) due) }
{
    match unit_of(alloc, given) {
        Ok(unit) => {
            let outputs = outputs_of(alloc, made, &unit)?;
            outputs_due(alloc, dir, outputs)
        }
        Err(DescFault::Fault(fault)) => fault_due(alloc, file, &fault),
        Err(DescFault::Memory) => Err(Memory),
    }
}
