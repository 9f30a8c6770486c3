//! Rows on what is written of blocks: modules and their layout as text, headers, and completed descriptions.
//!
//! Each call of `Tables::tell` names a table in `data/` and what answers its rows. The answers have no clauses: that they end is proved,
//! and what the program says is compared with the file `stdout`. Where no program answers, as of a register block's step, cases are
//! computed by the prover, in `proofs/Examples`.
#![tactic(auto)]

mod blocks;
mod completed;
mod headers;
mod modules;
mod printed;

use cg_base::Memory;
use cg_table::{Tables, ended};
use std::alloc::Global;
use std::fs::Files;
use std::process::ExitCode;

fn told<R: Files>(rt: &R, alloc: Global) -> Result<String, Memory> {
    let mut tables = Tables::new(rt, alloc);
    tables.tell("printed.txt", printed::answer)?;
    tables.tell("repeats.txt", printed::repeat)?;
    tables.tell("modules.txt", modules::answer)?;
    tables.tell("module_lines.txt", modules::lines)?;
    tables.tell("headers_read.txt", headers::constants)?;
    tables.tell("header_values.txt", headers::value)?;
    tables.tell("headers.txt", headers::answer)?;
    tables.tell("completed.txt", completed::answer)?;
    Ok(tables.told())
}

fn main(rt: HostRuntime) -> ExitCode {
    ended(told(&rt, rt.alloc()), rt.stdout())
}
