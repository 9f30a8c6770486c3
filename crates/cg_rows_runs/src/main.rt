//! Rows on whole runs: first faults, the files that a run writes, its status and its streams.
//!
//! Each call of `Tables::tell` names a table in `data/` and what answers its rows. The answers have no clauses: that they end is proved,
//! and what the program says is compared with the file `stdout`.
#![tactic(auto)]

mod first_faults;
mod noted;
mod pieces;
mod running;
mod runs;
mod sessions;
mod texts;
mod tops;

use cg_base::Memory;
use cg_table::{Tables, ended};
use std::alloc::Global;
use std::fs::Files;
use std::process::ExitCode;
use std::thread::Threads;

fn told<R: Files + Threads + Sync>(rt: &R, alloc: Global) -> Result<String, Memory> {
    let mut tables = Tables::new(rt, alloc);
    tables.tell("crossbar_runs.txt", |alloc, given| {
        runs::answer(rt, alloc, given)
    })?;
    tables.tell("crossbar_texts.txt", |alloc, given| {
        texts::of_crossbar(rt, alloc, given)
    })?;
    tables.tell("faulty_entries.txt", |alloc, given| {
        first_faults::line_of_entries(rt, alloc, given)
    })?;
    tables.tell("faulty_keys.txt", |alloc, given| {
        first_faults::line_of_keys(rt, alloc, given)
    })?;
    tables.tell("first_faults.txt", |alloc, given| {
        first_faults::answer(rt, alloc, given)
    })?;
    tables.tell("runs.txt", |alloc, given| runs::answer(rt, alloc, given))?;
    tables.tell("sessions.txt", |alloc, given| {
        sessions::answer(rt, alloc, given)
    })?;
    tables.tell("texts.txt", |alloc, given| texts::answer(rt, alloc, given))?;
    tables.tell("top_rules.txt", |alloc, given| {
        tops::answer(rt, alloc, given)
    })?;
    tables.tell("top_runs.txt", |alloc, given| {
        tops::answer(rt, alloc, given)
    })?;
    tables.tell("top_texts.txt", |alloc, given| {
        tops::texts(rt, alloc, given)
    })?;
    Ok(tables.told())
}

fn main(rt: HostRuntime) -> ExitCode {
    ended(told(&rt, rt.alloc()), rt.stdout())
}
