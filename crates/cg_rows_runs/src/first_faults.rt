//! Files with a first fault, and the line that tells it.

use crate::running::first_fault;
use cg_base::Memory;
use cg_table::{with_entries_in_line_3, with_keys};
use std::alloc::Global;
use std::thread::Threads;

/// The bytes of a text in which `‹ff›` is a byte by its digits.
pub fn bytes_of(alloc: Global, text: &str) -> Result<Vec<u8>, Memory> {
    let mut bytes = Vec::new(alloc);
    for piece in text.split('‹') {
        let Some((digits, rest)) = piece.split_once('›') else {
            bytes.extend_from_slice(piece.as_bytes())?;
            continue;
        };
        bytes.push(u8::from_str_radix(digits, 16).unwrap_or(0))?;
        bytes.extend_from_slice(rest.as_bytes())?;
    }
    Ok(bytes)
}

/// The line of the first fault of a description, without the file's name.
fn line<R: Threads + Sync>(rt: &R, alloc: Global, given: &str) -> Result<String, Memory> {
    let told = first_fault(rt, alloc, given.as_bytes())?;
    let line = told.strip_prefix("b.hjson:").unwrap_or(told.as_str());
    Ok(String::from_str(alloc, line)?)
}

/// A row gives the entries of a block; the line is told without the file's name.
pub fn line_of_entries<R: Threads + Sync>(
    rt: &R,
    alloc: Global,
    entries: &str,
) -> Result<String, Memory> {
    line(rt, alloc, with_entries_in_line_3(alloc, entries)?.as_str())
}

/// A row gives keys of a block; the line is told without the file's name.
pub fn line_of_keys<R: Threads + Sync>(
    rt: &R,
    alloc: Global,
    keys: &str,
) -> Result<String, Memory> {
    line(rt, alloc, with_keys(alloc, keys)?.as_str())
}

/// A row gives the file `b.hjson`, and the line is told with its name.
pub fn answer<R: Threads + Sync>(rt: &R, alloc: Global, given: &str) -> Result<String, Memory> {
    let bytes = bytes_of(alloc, given)?;
    first_fault(rt, alloc, &bytes)
}
