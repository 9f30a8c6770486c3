//! `tlgen`: one crossbar, from its description to the text of its module.

ghost use Rattle.std.specs.Prelude.{◌≡◌, [], ◌∷◌, IfOk, Option, List, ℕ};
ghost use Rattle.cg_crossbar.specs.Breaks.{FindsAlone, IsOutputOf};
ghost use Rattle.cg_words.specs.declared.command.Command.TheVariants.{Tlgen};
ghost use Rattle.cg_gen.specs.Reads.{read};
ghost use Rattle.cg_gen.specs.Inner.{IsGiven, IsDueFrom, only_file};

use crate::due::Due;
use crate::given::Given;
use crate::told::{alone, fault_due, outputs_due};
use cg_base::Memory;
use cg_crossbar::read_alone;
use cg_desc::DescFault;
use cg_files::{absent_file, large_file};
use cg_outputs::OutFile;
use std::alloc::Global;

/// The text of the only file of a build.
fn text_of(alloc: Global, given: &Given) -> Result<OutFile, DescFault>
    ensures { (g : Option (List ℕ)) → IsGiven given.now g → FindsAlone result (only_file g) (λ o. IsOutputOf (only_file g) o) }
{
    match given {
        Given::Absent => Err(absent_file(alloc, 0)),
        Given::Large => Err(large_file(alloc, 0)),
        Given::Bytes(bytes) => read_alone(alloc, 0, 0, bytes.as_slice()),
    }
}

/// What is due for a description: its first fault is told, or its crossbar's text is written into the folder.
pub fn tlgen_due(alloc: Global, file: &str, dir: &str, given: &Given) -> Result<Due, Memory>
    ensures { (g : Option (List ℕ)) → IsGiven given.now g → IfOk result (λ due. IsDueFrom (Tlgen file.now dir.now) (read file.now g ∷ []) due) }
{
    match text_of(alloc, given) {
        Ok(text) => {
            let outputs = alone(alloc, text)?;
            outputs_due(alloc, dir, outputs)
        }
        Err(DescFault::Fault(fault)) => fault_due(alloc, file, &fault),
        Err(DescFault::Memory) => Err(Memory),
    }
}
