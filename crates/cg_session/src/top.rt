//! A session over its input, store and streams.

ghost use Rattle.std.specs.Prelude.{◌≡◌, ◌≢◌, ◌<◌, ◌≤◌, ◌+◌, IfOk, length};
ghost use Rattle.cg_deeds.specs.Outside.{World, outlets, world};
ghost use Rattle.cg_session.specs.Ends.{code_of};
ghost use Rattle.cg_session.specs.Session.{SessionRuns, no_command_line};
ghost use Rattle.cg_session.specs.Steps.{Finishing, NumberTold};
ghost use Rattle.cg_session.specs.Turns.{opened};

use crate::ending::Ending;
use crate::kept::Session;
use crate::laws::a_session_means;
use crate::step::{Step, do_all};
use cg_base::{Gate, List, Memory, Sink, SinkFault, Source, Steps, Store, Text};
use cg_keep::Keep;
use std::alloc::Global;
use std::sync::ledger::Ledger;
use std::thread::Threads;

/// How many bytes of an input count.
const LIMIT: usize = 67_108_864;

/// The line that the command of this number is none.
fn no_command_line(alloc: Global, number: u32) -> Result<Text, Memory>
    ensures { IfOk result (λ l. l ≡ no_command_line number) }
{
    let line = format!(in alloc; "session command {number} is not a command\n")?;
    Ok(Text::from_string(line))
}

/// Tells the number of what is no command.
fn tell_number<E: Sink>(alloc: Global, number: u32, err: &mut E) -> Ending
    ensures { NumberTold result number (E.held err.old) (E.held err.new) (E.faults err.old) (E.faults err.new) }
{
    match no_command_line(alloc, number) {
        Ok(line) => match err.put(line.as_str().as_bytes()) {
            Ok(()) => Ending::NoCommand,
            Err(SinkFault::Failed) => Ending::WriteFailed,
            Err(SinkFault::Memory) => Ending::Memory,
        },
        Err(_) => Ending::Memory,
    }
}

/// How a session ends by its last step.
fn finish<E: Sink>(alloc: Global, step: Step, number: u32, refused: bool, err: &mut E) -> Ending
    requires { step ≢ Step.Next }
    ensures { Finishing step result refused number (E.held err.old) (E.held err.new) (E.faults err.old) (E.faults err.new) }
{
    match step {
        Step::Next => unreachable!(),
        Step::Finish => {
            if refused {
                Ending::Refused
            } else {
                Ending::Good
            }
        }
        Step::NoCommand => tell_number(alloc, number, err),
        Step::TooLong => Ending::TooLong,
        Step::ReadFailed => Ending::ReadFailed,
        Step::WriteFailed => Ending::WriteFailed,
        Step::Memory => Ending::Memory,
    }
}

/// What is kept at the beginning.
fn opened(alloc: Global, top: &str, dir: &str) -> Result<Session, Memory>
    ensures { IfOk result (λ s. s ≡ opened top.now dir.now) }
{
    Ok(Session {
        keep: Keep::new(alloc, Text::of(alloc, top)?)?,
        dir: Text::of(alloc, dir)?,
        good: List::new(alloc),
        refused: false,
    })
}

/// Reads commands from `input`, up to the line `end` and no further, and does them.
///
/// The files that are put are those of the top with the name `top`; what is built is written into the folder `dir`. At most 67,108,864
/// bytes of the input count. What each ending means is a field of `SessionRuns`. No clause rules out want of memory, and where a source,
/// the store or a stream tells no content, the clauses on content say nothing of it.
pub fn session<R: Threads + Sync, S: Store, I: Source, O: Sink, E: Sink, G: Gate + Sync, L: Ledger>(
    rt: &R,
    alloc: Global,
    top: &str,
    dir: &str,
    workers: u8,
    store: &mut S,
    input: &mut I,
    out: &mut O,
    err: &mut E,
    gate: &G,
    steps: &mut Steps<L>,
) -> Ending
    requires some { 0 < workers }
    requires few { workers ≤ 64 }
    ensures runs { let before : World = world (outlets (S.content store.old) (S.change_faults store.old) (O.held out.old) (O.faults out.old) (E.held err.old) (E.faults err.old)) (S.asked store.old) (S.read_faults store.old) (I.left input.old) (I.faults input.old) in
        let after : World = world (outlets (S.content store.new) (S.change_faults store.new) (O.held out.new) (O.faults out.new) (E.held err.new) (E.faults err.new)) (S.asked store.new) (S.read_faults store.new) (I.left input.new) (I.faults input.new) in
        SessionRuns (code_of result) top.now dir.now before after }
    ensures steps { steps.new ≡ steps.old }
{
    a_session_means();
    let mut session = match opened(alloc, top, dir) {
        Ok(session) => session,
        Err(_) => return Ending::Memory,
    };
    let mut room = LIMIT;
    let mut number = 1;
    let step = do_all(
        rt,
        alloc,
        workers,
        &mut session,
        &mut room,
        &mut number,
        store,
        input,
        out,
        gate,
        steps,
    );
    finish(alloc, step, number, session.refused, err)
}
