//! Rows on what lies below descriptions: numbers, lists, stores and streams, command lines, documents and objects by tables of keys.
//!
//! Each call of `Tables::tell` names a table in `data/` and what answers its rows. The answers have no clauses: that they end is proved,
//! and what the program says is compared with the file `stdout`.
#![tactic(auto)]

mod basics;
mod documents;
mod duplicates;
mod json;
mod keys;
mod lists;
mod names;
mod numbers;
mod stores;
mod streams;
mod trees;
mod values;
mod words;

use cg_base::Memory;
use cg_table::{Tables, ended};
use std::alloc::Global;
use std::fs::Files;
use std::process::ExitCode;

fn told<R: Files + Copy + Drop>(rt: &R, alloc: Global) -> Result<String, Memory> {
    let mut tables = Tables::new(rt, alloc);
    tables.tell("basics.txt", basics::answer)?;
    tables.tell("numbers.txt", numbers::answer)?;
    tables.tell(
        "stores.txt",
        |alloc, given| stores::answer(rt, alloc, given),
    )?;
    tables.tell("streams.txt", streams::answer)?;
    tables.tell("words.txt", words::answer)?;
    tables.tell("documents.txt", documents::answer)?;
    tables.tell("places.txt", documents::answer_with_places)?;
    tables.tell("json.txt", json::answer)?;
    tables.tell("names.txt", names::answer)?;
    tables.tell("values.txt", values::answer)?;
    tables.tell("lookups.txt", values::answer_for_each)?;
    tables.tell("keys.txt", keys::answer)?;
    tables.tell("lists.txt", lists::answer)?;
    tables.tell("duplicates.txt", duplicates::answer)?;
    Ok(tables.told())
}

fn main(rt: HostRuntime) -> ExitCode {
    ended(told(&rt, rt.alloc()), rt.stdout())
}
