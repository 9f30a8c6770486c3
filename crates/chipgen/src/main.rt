//! The program: runs the words of its command line on the system's files and streams.
//!
//! It makes the real store and streams and the steps' counter, calls `cg_gen::run`, and ends with
//! its status. What a run does is the contract of that call; what the system's files hold between
//! two calls is not said.
#![tactic(auto)]

ghost use Rattle.std.specs.Prelude.{◌≡◌};

use cg_base::{FileStore, OpenGate, Sink, Source, StdSink, StdSource, Steps, Store};
use std::alloc::Global;
use std::env;
use std::io::ErrorKind;
use std::marker::Brand;
use std::process::ExitCode;
use std::sync::ledger::{Blank, Ledger};
use std::thread::Threads;

/// The status of a run that found no memory for its words.
const OUT_OF_MEMORY: u8 = 5;

// Runs the words with a counter of steps made from the blank.
fn run_counted<L: Ledger, R: Threads + Sync, S: Store, I: Source, O: Sink, E: Sink>(
    rt: &R,
    alloc: Global,
    words: &[String],
    store: &mut S,
    input: &mut I,
    out: &mut O,
    err: &mut E,
    blank: Blank,
) -> u8
    requires name { blank.name ≡ L.name }
    requires parts { blank.parts ≡ L.parts }
    requires one { L.parts ≡ 1 }
{
    let mut steps = Steps::<L>::new(blank);
    cg_gen::run(
        rt, alloc, words, store, input, out, err, &OpenGate, &mut steps,
    )
}

// The words of the command line without the program's name, `None` where memory was not found for them. Words that are not UTF-8
// are no command, and are taken for none at all.
fn words_of(rt: HostRuntime) -> Option<Vec<String>> {
    let mut args = match env::args(&rt) {
        Ok(args) => args,
        Err(error) => {
            return if error.kind() == ErrorKind::OutOfMemory {
                None
            } else {
                Some(Vec::new(rt.alloc()))
            };
        }
    };
    let _program = args.next();
    let mut words = Vec::new(rt.alloc());
    for word in args {
        words.push(word).ok()?;
    }
    Some(words)
}

fn main(rt: HostRuntime) -> ExitCode {
    let Some(words) = words_of(rt) else {
        return ExitCode::from(OUT_OF_MEMORY);
    };
    let mut store = FileStore::new(rt);
    let mut input = StdSource::new(rt.stdin());
    let mut out = StdSink::new(rt.stdout());
    let mut err = StdSink::new(rt.stderr());
    let status = run_counted::<Brand, _, _, _, _, _>(
        &rt,
        rt.alloc(),
        &words,
        &mut store,
        &mut input,
        &mut out,
        &mut err,
        Blank::new(1),
    );
    ExitCode::from(status)
}
