//! Names in the store, and lines that are told.

ghost use Rattle.std.specs.Prelude.{◌≡◌, IfOk};
ghost use Rattle.cg_deeds.specs.Told.{built_line, stored_name};

use cg_base::{Memory, Text};
use std::alloc::Global;

/// How many files were written and removed, as a line.
pub fn built_line(alloc: Global, written: usize, removed: usize) -> Result<Text, Memory>
    ensures { IfOk result (λ t. t ≡ built_line written removed) }
{
    let line = format!(in alloc; "built {written} {removed}\n")?;
    Ok(Text::from_string(line))
}

/// A file's name in the store: the folder, `/` and its name.
#[tactic(auto, using(crate::proofs::Lists::appends))]
pub fn stored_name(alloc: Global, dir: &str, name: &str) -> Result<Text, Memory>
    ensures { IfOk result (λ t. t ≡ stored_name dir.now name.now) }
{
    let mut stored = Text::of(alloc, dir)?;
    stored.add("/")?;
    stored.add(name)?;
    Ok(stored)
}
