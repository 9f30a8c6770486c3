//! One run over memory.

ghost use Rattle.std.specs.Prelude.{◌≡◌};

use crate::noted::NotedStore;
use crate::pieces::PiecedSource;
use cg_base::{List, MemSink, Memory, OpenGate, Steps};
use cg_gen::run;
use std::alloc::Global;
use std::marker::Brand;
use std::sync::ledger::{Blank, Ledger};
use std::thread::Threads;

/// The words that ask for the register texts of `b.hjson` in the folder `out`.
pub const REGTOOL: &str = "regtool -r -t out b.hjson";

/// What a run leaves: its status, its files, and what stands on the streams.
#[derive(Drop)]
pub struct Ran {
    pub status: u8,
    pub store: NotedStore,
    pub out: MemSink,
    pub err: MemSink,
}

/// The words of a line, between its spaces.
fn words_of(alloc: Global, line: &str) -> Result<Vec<String>, Memory> {
    let mut words = Vec::new(alloc);
    for word in line.split(' ') {
        if !word.is_empty() {
            words.push(String::from_str(alloc, word)?)?;
        }
    }
    Ok(words)
}

fn run_counted<L: Ledger, R: Threads + Sync>(
    rt: &R,
    alloc: Global,
    words: &[String],
    input: &mut PiecedSource,
    ran: &mut Ran,
    blank: Blank,
)
    requires name { blank.name ≡ L.name }
    requires parts { blank.parts ≡ L.parts }
    requires one { L.parts ≡ 1 }
{
    let mut steps = Steps::<L>::new(blank);
    ran.status = run(
        rt,
        alloc,
        words,
        &mut ran.store,
        input,
        &mut ran.out,
        &mut ran.err,
        &OpenGate,
        &mut steps,
    );
}

/// Runs the words of a line on the store, where these calls of the output and of the error stream are to fail.
pub fn ran_on<R: Threads + Sync>(
    rt: &R,
    alloc: Global,
    line: &str,
    store: NotedStore,
    bad_outputs: List<u64>,
    bad_errors: List<u64>,
) -> Result<Ran, Memory> {
    let mut input = PiecedSource::empty(alloc);
    ran_with(rt, alloc, line, store, &mut input, bad_outputs, bad_errors)
}

/// The same, with this input.
pub fn ran_with<R: Threads + Sync>(
    rt: &R,
    alloc: Global,
    line: &str,
    store: NotedStore,
    input: &mut PiecedSource,
    bad_outputs: List<u64>,
    bad_errors: List<u64>,
) -> Result<Ran, Memory> {
    let words = words_of(alloc, line)?;
    let mut ran = Ran {
        status: 255,
        store,
        out: MemSink::new(alloc, bad_outputs),
        err: MemSink::new(alloc, bad_errors),
    };
    run_counted::<Brand, _>(rt, alloc, &words, input, &mut ran, Blank::new(1));
    Ok(ran)
}

/// Runs the words of a line on a store with this file alone, where no call is to fail.
pub fn ran_over<R: Threads + Sync>(
    rt: &R,
    alloc: Global,
    line: &str,
    name: &str,
    bytes: &[u8],
) -> Result<Ran, Memory> {
    let mut store = NotedStore::new(alloc, List::new(alloc), List::new(alloc));
    store.add(name, bytes)?;
    ran_on(rt, alloc, line, store, List::new(alloc), List::new(alloc))
}

/// Adds what stands on a stream, under the stream's name.
fn add_stream(alloc: Global, text: &mut String, name: &str, bytes: &[u8]) -> Result<(), Memory> {
    if !bytes.is_empty() {
        let held = String::from_utf8_lossy(alloc, bytes)?;
        write!(text, "\n{name}:\n{held}")?;
    }
    Ok(())
}

/// The status, the changes of files, and what stands on the streams.
pub fn spelled(alloc: Global, ran: &Ran) -> Result<String, Memory> {
    let status = ran.status;
    let mut text = format!(in alloc; "status {status}")?;
    for change in ran.store.changes() {
        write!(&mut text, "\n{change}")?;
    }
    add_stream(alloc, &mut text, "output", ran.out.bytes())?;
    add_stream(alloc, &mut text, "error", ran.err.bytes())?;
    Ok(text)
}

/// The line that tells the first fault of the file `b.hjson`, where the run does no more than tell it and ends with 1; else all that
/// it does.
pub fn first_fault<R: Threads + Sync>(
    rt: &R,
    alloc: Global,
    bytes: &[u8],
) -> Result<String, Memory> {
    let ran = ran_over(rt, alloc, REGTOOL, "b.hjson", bytes)?;
    let told = String::from_utf8_lossy(alloc, ran.err.bytes())?;
    let is_quiet = ran.out.bytes().is_empty() && ran.store.changes().is_empty();
    match told.strip_suffix('\n') {
        Some(line) if ran.status == 1 && is_quiet => Ok(String::from_str(alloc, line)?),
        _ => spelled(alloc, &ran),
    }
}
