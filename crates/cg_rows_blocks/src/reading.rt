//! What is told of a block's keys and values: the first fault, or `none`.

use crate::stages::described;
use cg_base::Memory;
use cg_table::{with_entries, with_keys};
use std::alloc::Global;

/// The line of the first fault of a description.
pub fn answer(alloc: Global, document: &str) -> Result<String, Memory> {
    match described(alloc, document) {
        Ok(_) => Ok(String::from_str(alloc, "none")?),
        Err(stop) => stop.line(alloc),
    }
}

/// The same of a block with these entries.
pub fn answer_for_entries(alloc: Global, entries: &str) -> Result<String, Memory> {
    answer(alloc, with_entries(alloc, entries)?.as_str())
}

/// The same of a block with these keys.
pub fn answer_for_keys(alloc: Global, keys: &str) -> Result<String, Memory> {
    answer(alloc, with_keys(alloc, keys)?.as_str())
}
