//! A build of a session: its changes, and its line.

ghost use Rattle.std.specs.Prelude.{◌≡◌, ◌<◌, ◌≤◌, IfOk, OnOk};
ghost use Rattle.cg_deeds.specs.Told.{built_line};
ghost use Rattle.cg_session.specs.Play.{built_deeds, changes, removed_count, written_count};
ghost use Rattle.cg_session.specs.Turns.{Side, side, ChangesEnd, DeedsEnd, NotBefore, SamePlace, Tells, TurnEnds, held_after, held_deeds, kept_in};

use crate::build::{BuildAnswer, build};
use crate::changes::{count_new, count_old, manifest_of, perform, texts_of};
use crate::kept::Session;
use cg_base::{Gate, Memory, Sink, SinkFault, Steps, Store, StoreFault, Text};
use cg_deeds::{Stop, built_line};
use cg_outputs::OutFile;
use std::alloc::Global;
use std::sync::ledger::Ledger;
use std::thread::Threads;

/// The line of a good build.
fn line_of(alloc: Global, last: &[OutFile], new: &[OutFile]) -> Result<Text, Memory>
    ensures { IfOk result (λ l. l ≡ built_line (written_count last.now new.now) (removed_count last.now new.now)) }
{
    let written = count_new(last, texts_of(new)) + count_new(last, manifest_of(new));
    built_line(alloc, written, count_old(last, new))
}

/// Says a line on the output.
fn tell<O: Sink>(line: &Text, out: &mut O) -> Result<(), Stop>
    ensures told { Tells result line.now (O.held out.old) (O.held out.new) (O.faults out.old) (O.faults out.new) }
    ensures later { O.faults out.old ≤ O.faults out.new }
{
    match out.put(line.as_str().as_bytes()) {
        Ok(()) => Ok(()),
        Err(SinkFault::Failed) => Err(Stop::Failed),
        Err(SinkFault::Memory) => Err(Stop::Memory),
    }
}

/// Makes the changes of a good build.
fn change<S: Store>(last: &[OutFile], new: &[OutFile], store: &mut S) -> Result<(), Stop>
    ensures ends { ChangesEnd result (changes last.now new.now) (S.content store.old) (S.content store.new) (S.change_faults store.old) (S.change_faults store.new) }
    ensures later { S.change_faults store.old ≤ S.change_faults store.new }
    ensures asked { S.asked store.new ≡ S.asked store.old }
    ensures reads { S.read_faults store.new ≡ S.read_faults store.old }
{
    match perform(last, new, store) {
        Ok(()) => Ok(()),
        Err(StoreFault::Failed) => Err(Stop::Failed),
        Err(StoreFault::Memory) => Err(Stop::Memory),
    }
}

/// The changes of a good build, and then its line.
fn change_and_tell<S: Store, O: Sink>(
    last: &[OutFile],
    new: &[OutFile],
    line: &Text,
    store: &mut S,
    out: &mut O,
) -> Result<(), Stop>
    requires { line.now ≡ built_line (written_count last.now new.now) (removed_count last.now new.now) }
    ensures ends { let before : Side = side (S.content store.old) (S.change_faults store.old) (O.held out.old) (O.faults out.old) in
        let after : Side = side (S.content store.new) (S.change_faults store.new) (O.held out.new) (O.faults out.new) in
        DeedsEnd result (built_deeds last.now new.now) before after }
    ensures later { let before : Side = side (S.content store.old) (S.change_faults store.old) (O.held out.old) (O.faults out.old) in
        let after : Side = side (S.content store.new) (S.change_faults store.new) (O.held out.new) (O.faults out.new) in
        NotBefore before after }
    ensures asked { S.asked store.new ≡ S.asked store.old }
    ensures reads { S.read_faults store.new ≡ S.read_faults store.old }
{
    match change(last, new, store) {
        Ok(()) => tell(line, out),
        Err(stop) => Err(stop),
    }
}

/// The deeds of a build, by its answer.
fn answer_turn<S: Store, O: Sink>(
    alloc: Global,
    answer: BuildAnswer,
    session: &mut Session,
    store: &mut S,
    out: &mut O,
) -> Result<(), Stop>
    ensures ends { let before : Side = side (S.content store.old) (S.change_faults store.old) (O.held out.old) (O.faults out.old) in
        let after : Side = side (S.content store.new) (S.change_faults store.new) (O.held out.new) (O.faults out.new) in
        DeedsEnd result (held_deeds session.old.good answer) before after }
    ensures later { let before : Side = side (S.content store.old) (S.change_faults store.old) (O.held out.old) (O.faults out.old) in
        let after : Side = side (S.content store.new) (S.change_faults store.new) (O.held out.new) (O.faults out.new) in
        NotBefore before after }
    ensures kept { OnOk result (kept_in session.new ≡ held_after (kept_in session.old) answer) }
    ensures same { SamePlace session.old session.new }
    ensures asked { S.asked store.new ≡ S.asked store.old }
    ensures reads { S.read_faults store.new ≡ S.read_faults store.old }
{
    match answer {
        BuildAnswer::Refused(line) => match tell(&line, out) {
            Ok(()) => {
                session.refused = true;
                Ok(())
            }
            Err(stop) => Err(stop),
        },
        BuildAnswer::Built(new) => {
            let last = session.good.as_slice();
            let line = match line_of(alloc, last, new.as_slice()) {
                Ok(line) => line,
                Err(_) => return Err(Stop::Memory),
            };
            change_and_tell(last, new.as_slice(), &line, store, out)?;
            session.good = new;
            session.refused = false;
            Ok(())
        }
    }
}

/// A build of the files that are kept.
pub fn build_turn<R: Threads + Sync, S: Store, O: Sink, G: Gate + Sync, L: Ledger>(
    rt: &R,
    alloc: Global,
    workers: u8,
    session: &mut Session,
    store: &mut S,
    out: &mut O,
    gate: &G,
    steps: &mut Steps<L>,
) -> Result<(), Stop>
    requires some { 0 < workers }
    requires few { workers ≤ 64 }
    ensures ends { let before : Side = side (S.content store.old) (S.change_faults store.old) (O.held out.old) (O.faults out.old) in
        let after : Side = side (S.content store.new) (S.change_faults store.new) (O.held out.new) (O.faults out.new) in
        TurnEnds result session.old.keep.top session.old.dir (kept_in session.old) (kept_in session.new) before after }
    ensures later { let before : Side = side (S.content store.old) (S.change_faults store.old) (O.held out.old) (O.faults out.old) in
        let after : Side = side (S.content store.new) (S.change_faults store.new) (O.held out.new) (O.faults out.new) in
        NotBefore before after }
    ensures same { SamePlace session.old session.new }
    ensures asked { S.asked store.new ≡ S.asked store.old }
    ensures reads { S.read_faults store.new ≡ S.read_faults store.old }
    ensures steps { steps.new ≡ steps.old }
{
    let answer = build(
        rt,
        alloc,
        workers,
        &mut session.keep,
        session.dir.as_str(),
        gate,
        steps,
    );
    match answer {
        Ok(answer) => answer_turn(alloc, answer, session, store, out),
        Err(_) => Err(Stop::Memory),
    }
}
