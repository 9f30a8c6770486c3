//! The commands of a session, one after the other.

ghost use Rattle.std.specs.Prelude.{◌≡◌, ◌≢◌, ◌≤◌, ◌<◌, ◌^◌, OnErr, OnOk};
ghost use Rattle.std.specs.FinMap as map;
ghost use Rattle.cg_session.specs.Play.{keeping};
ghost use Rattle.cg_session.specs.Steps.{Inlet, inlet, PlayedTo, StepEnds, StepOfBuild};
ghost use Rattle.cg_session.specs.Turns.{Side, side, SamePlace, kept_in};

use crate::command::{Got, next_command};
use crate::kept::Session;
use crate::turn::build_turn;
use cg_base::{Gate, List, Memory, Sink, Source, Steps, Store, Text};
use cg_deeds::Stop;
use std::alloc::Global;
use std::sync::ledger::Ledger;
use std::thread::Threads;

/// How one command ended.
#[derive(Clone, Copy)]
pub enum Step {
    Next,
    Finish,
    NoCommand,
    TooLong,
    ReadFailed,
    WriteFailed,
    Memory,
}

fn after_build(ended: Result<(), Stop>) -> Step
    ensures { StepOfBuild ended result }
{
    match ended {
        Ok(()) => Step::Next,
        Err(Stop::Failed) => Step::WriteFailed,
        Err(Stop::Memory) => Step::Memory,
    }
}

fn put_file(session: &mut Session, name: Text, bytes: List<u8>) -> Result<(), Memory>
    ensures ok { OnOk result (kept_in session.new ≡ keeping (map.insert session.old.keep.files name bytes) session.old.good session.old.refused) }
    ensures err { OnErr result (kept_in session.new ≡ kept_in session.old) }
    ensures same { SamePlace session.old session.new }
{
    session.keep.put(name, bytes)
}

fn del_file(session: &mut Session, name: &Text)
    ensures kept { kept_in session.new ≡ keeping (map.remove session.old.keep.files name.now) session.old.good session.old.refused }
    ensures same { SamePlace session.old session.new }
{
    session.keep.del(name.as_str());
}

/// Takes the next command and does it.
pub fn do_next<R: Threads + Sync, S: Store, I: Source, O: Sink, G: Gate + Sync, L: Ledger>(
    rt: &R,
    alloc: Global,
    workers: u8,
    session: &mut Session,
    room: &mut usize,
    store: &mut S,
    input: &mut I,
    out: &mut O,
    gate: &G,
    steps: &mut Steps<L>,
) -> Step
    requires some { 0 < workers }
    requires few { workers ≤ 64 }
    ensures ends { let before : Side = side (S.content store.old) (S.change_faults store.old) (O.held out.old) (O.faults out.old) in
        let after : Side = side (S.content store.new) (S.change_faults store.new) (O.held out.new) (O.faults out.new) in
        StepEnds result session.old.keep.top session.old.dir (kept_in session.old) (kept_in session.new) (inlet (I.left input.old) (I.faults input.old) room.old) (inlet (I.left input.new) (I.faults input.new) room.new) before after }
    ensures same { SamePlace session.old session.new }
    ensures asked { S.asked store.new ≡ S.asked store.old }
    ensures reads { S.read_faults store.new ≡ S.read_faults store.old }
    ensures steps { steps.new ≡ steps.old }
{
    match next_command(alloc, input, room) {
        Ok(Got::Put { name, bytes }) => match put_file(session, name, bytes) {
            Ok(()) => Step::Next,
            Err(_) => Step::Memory,
        },
        Ok(Got::Del { name }) => {
            del_file(session, &name);
            Step::Next
        }
        Ok(Got::Build) => after_build(build_turn(
            rt, alloc, workers, session, store, out, gate, steps,
        )),
        Ok(Got::Finish) => Step::Finish,
        Ok(Got::NoCommand) => Step::NoCommand,
        Ok(Got::Ended) => Step::NoCommand,
        Ok(Got::Full) => Step::TooLong,
        Ok(Got::Failed) => Step::ReadFailed,
        Err(_) => Step::Memory,
    }
}

/// Takes commands and does them, up to the first that does not go on. `number` counts them from 1.
pub fn do_all<R: Threads + Sync, S: Store, I: Source, O: Sink, G: Gate + Sync, L: Ledger>(
    rt: &R,
    alloc: Global,
    workers: u8,
    session: &mut Session,
    room: &mut usize,
    number: &mut u32,
    store: &mut S,
    input: &mut I,
    out: &mut O,
    gate: &G,
    steps: &mut Steps<L>,
) -> Step
    requires some { 0 < workers }
    requires few { workers ≤ 64 }
    requires first { number.old ≡ 1 }
    requires limit { room.old ≤ 2 ^ 26 }
    ensures ends { let before : Side = side (S.content store.old) (S.change_faults store.old) (O.held out.old) (O.faults out.old) in
        let after : Side = side (S.content store.new) (S.change_faults store.new) (O.held out.new) (O.faults out.new) in
        PlayedTo result session.old.keep.top session.old.dir (kept_in session.old) (kept_in session.new) number.new (inlet (I.left input.old) (I.faults input.old) room.old) (inlet (I.left input.new) (I.faults input.new) room.new) before after }
    ensures stops { result ≢ Step.Next }
    ensures asked { S.asked store.new ≡ S.asked store.old }
    ensures reads { S.read_faults store.new ≡ S.read_faults store.old }
    ensures steps { steps.new ≡ steps.old }
{
    'commands: loop {
        match do_next(
            rt, alloc, workers, session, room, store, input, out, gate, steps,
        ) {
            Step::Next => *number += 1,
            stop => return stop,
        }
    }
}
