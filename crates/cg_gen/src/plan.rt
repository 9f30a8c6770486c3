//! What is due for the words: a command has its own file, and one line here.

ghost use Rattle.std.specs.Prelude.{◌≡◌, ◌≤◌, IfOk, IfErr, Option, List, ℕ};
ghost use Rattle.cg_words.specs.Words.{IsCommand};
ghost use Rattle.cg_words.specs.declared.command.Command.TheVariants.{Regtool, Tlgen};
ghost use Rattle.cg_gen.specs.Due.{due_of_no_command};
ghost use Rattle.cg_gen.specs.Inner.{AreWords, PlanEnds};
ghost use Rattle.cg_gen.specs.Sample.{IsSampleDue};

use crate::due::Due;
use crate::given::read_file;
use crate::regtool::regtool_due;
use crate::samples::sample_due;
use crate::tlgen::tlgen_due;
use crate::told::usage_due;
use crate::topgen::topgen;
use cg_base::{Gate, Memory, Steps, Store};
use cg_deeds::Stop;
use cg_words::{Command, RegOut};
use std::alloc::Global;
use std::sync::ledger::Ledger;
use std::thread::Threads;

/// `regtool`: the description is read, and its first fault is told or its outputs are written.
fn regtool<S: Store>(
    alloc: Global,
    made: RegOut,
    dir: &str,
    file: &str,
    store: &mut S,
) -> Result<Due, Stop>
    ensures ends { (words : List (List ℕ)) → IsCommand words (Regtool made dir.now file.now) → PlanEnds result words (S.content store.old) (S.asked store.old) (S.asked store.new) (S.read_faults store.old) (S.read_faults store.new) }
    ensures same { S.content store.new ≡ S.content store.old }
    ensures changes { S.change_faults store.new ≡ S.change_faults store.old }
{
    let given = match read_file(alloc, file, store) {
        Ok(given) => given,
        Err(stop) => return Err(stop),
    };
    match regtool_due(alloc, made, dir, file, &given) {
        Ok(due) => Ok(due),
        Err(Memory) => Err(Stop::Memory),
    }
}

/// `tlgen`: the description is read, and its first fault is told or its text is written.
fn tlgen<S: Store>(alloc: Global, file: &str, dir: &str, store: &mut S) -> Result<Due, Stop>
    ensures ends { (words : List (List ℕ)) → IsCommand words (Tlgen file.now dir.now) → PlanEnds result words (S.content store.old) (S.asked store.old) (S.asked store.new) (S.read_faults store.old) (S.read_faults store.new) }
    ensures same { S.content store.new ≡ S.content store.old }
    ensures changes { S.change_faults store.new ≡ S.change_faults store.old }
{
    let given = match read_file(alloc, file, store) {
        Ok(given) => given,
        Err(stop) => return Err(stop),
    };
    match tlgen_due(alloc, file, dir, &given) {
        Ok(due) => Ok(due),
        Err(Memory) => Err(Stop::Memory),
    }
}

/// `sample`: a large top is built in memory, and what there is of it is told.
fn sample<R: Threads + Sync, G: Gate + Sync, L: Ledger>(
    rt: &R,
    alloc: Global,
    number: u32,
    gate: &G,
    steps: &mut Steps<L>,
) -> Result<Due, Stop>
    requires least { 1 ≤ number }
    requires most { number ≤ 200 }
    ensures due { IfOk result (λ due. IsSampleDue number due) }
    ensures memory { IfErr result (λ e. e ≡ Stop.Memory) }
    ensures steps { steps.new ≡ steps.old }
{
    match sample_due(rt, alloc, number, gate, steps) {
        Ok(due) => Ok(due),
        Err(Memory) => Err(Stop::Memory),
    }
}

/// The usage text is due.
fn usage(alloc: Global) -> Result<Due, Stop>
    ensures due { IfOk result (λ d. d ≡ due_of_no_command) }
    ensures memory { IfErr result (λ e. e ≡ Stop.Memory) }
{
    match usage_due(alloc) {
        Ok(due) => Ok(due),
        Err(Memory) => Err(Stop::Memory),
    }
}

/// What is due for words that are this command, or none. Words of a command that is not built are answered like words that are none.
pub fn plan<R: Threads + Sync, S: Store, G: Gate + Sync, L: Ledger>(
    rt: &R,
    alloc: Global,
    command: Option<Command>,
    store: &mut S,
    gate: &G,
    steps: &mut Steps<L>,
) -> Result<Due, Stop>
    requires { (words : List (List ℕ)) × AreWords words command }
    ensures ends { (words : List (List ℕ)) → AreWords words command → PlanEnds result words (S.content store.old) (S.asked store.old) (S.asked store.new) (S.read_faults store.old) (S.read_faults store.new) }
    ensures same { S.content store.new ≡ S.content store.old }
    ensures changes { S.change_faults store.new ≡ S.change_faults store.old }
    ensures steps { steps.new ≡ steps.old }
{
    match command {
        Some(Command::Regtool { made, dir, file }) => {
            regtool(alloc, made, dir.as_str(), file.as_str(), store)
        }
        Some(Command::Tlgen { file, dir }) => tlgen(alloc, file.as_str(), dir.as_str(), store),
        Some(Command::Topgen { file, dir, workers }) => topgen(
            rt,
            alloc,
            file.as_str(),
            dir.as_str(),
            workers,
            store,
            gate,
            steps,
        ),
        Some(Command::Session { .. }) => usage(alloc),
        Some(Command::Probe { .. }) => usage(alloc),
        Some(Command::Sample { number }) => sample(rt, alloc, number, gate, steps),
        None => usage(alloc),
    }
}
