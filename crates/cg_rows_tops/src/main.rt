//! Rows on whole tops: the first fault of all files, and the address map of the tops that have none.
//!
//! What is given of a row is a top with its files, and what is asked of it (`given`). The files are read and judged as a build judges them:
//! the top's own first, then all files by phase, then what they break on one another, then the ranges (`build`). The answer is the line of
//! the first fault, or what was asked: the rows of the map, what stands at addresses, the ranges, ends and bases (`asked`).
//!
//! Each call of `Tables::tell` names a table in `data/` and what answers its rows. The answers have no clauses but those that the calls
//! below ask for: what the program says is compared with the file `stdout`.
#![tactic(auto)]

mod asked;
mod build;
mod files;
mod given;
mod pins;
mod shared;
mod shown;
mod sources;

use cg_base::Memory;
use cg_table::{Tables, ended};
use std::alloc::Global;
use std::fs::Files;
use std::process::ExitCode;

fn told<R: Files>(rt: &R, alloc: Global) -> Result<String, Memory> {
    let mut tables = Tables::new(rt, alloc);
    tables.tell("top_faults.txt", asked::answer)?;
    tables.tell("spaces.txt", asked::answer)?;
    tables.tell("maps.txt", asked::answer)?;
    tables.tell("shared.txt", shared::answer)?;
    tables.tell("sources.txt", asked::answer)?;
    tables.tell("pins.txt", asked::answer)?;
    Ok(tables.told())
}

fn main(rt: HostRuntime) -> ExitCode {
    ended(told(&rt, rt.alloc()), rt.stdout())
}
