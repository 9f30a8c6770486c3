//! Rows on what blocks, crossbars and tops describe: what is read of them, the items that a block stands for, and its layout.
//!
//! Each call of `Tables::tell` names a table in `data/` and what answers its rows. The answers have no clauses: that they end is proved,
//! and what the program says is compared with the file `stdout`.
#![tactic(auto)]

mod crossbars;
mod described;
mod items;
mod laid;
mod reading;
mod stages;
mod tops;

use cg_base::Memory;
use cg_table::{Tables, ended};
use std::alloc::Global;
use std::fs::Files;
use std::process::ExitCode;

fn told<R: Files>(rt: &R, alloc: Global) -> Result<String, Memory> {
    let mut tables = Tables::new(rt, alloc);
    tables.tell("read_blocks.txt", reading::answer)?;
    tables.tell("read_entries.txt", reading::answer_for_entries)?;
    tables.tell("read_shadowed.txt", reading::answer_for_entries)?;
    tables.tell("read_keys.txt", reading::answer_for_keys)?;
    tables.tell("described_blocks.txt", described::answer)?;
    tables.tell("described_entries.txt", described::answer_for_entries)?;
    tables.tell("crossbars.txt", crossbars::answer)?;
    tables.tell("tops.txt", tops::answer)?;
    tables.tell("items_of_entries.txt", items::answer_for_entries)?;
    tables.tell("items_of_keys.txt", items::answer_for_keys)?;
    tables.tell("laid_entries.txt", laid::rows_of_entries)?;
    tables.tell("laid_keys.txt", laid::rows_of_keys)?;
    tables.tell("fields_of_entries.txt", laid::fields_of_entries)?;
    tables.tell("fields_of_keys.txt", laid::fields_of_keys)?;
    Ok(tables.told())
}

fn main(rt: HostRuntime) -> ExitCode {
    ended(told(&rt, rt.alloc()), rt.stdout())
}
