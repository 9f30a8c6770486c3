//! Whole runs of `topgen` on several files.

use crate::first_faults::bytes_of;
use crate::noted::NotedStore;
use crate::running::{Ran, ran_on, spelled};
use crate::runs::bad_calls;
use cg_base::Memory;
use std::alloc::Global;
use std::thread::Threads;

/// Adds the file that ends here, if one was begun.
fn add_file(
    alloc: Global,
    store: &mut NotedStore,
    name: Option<&str>,
    text: &str,
) -> Result<(), Memory> {
    let Some(name) = name else {
        return Ok(());
    };
    let bytes = bytes_of(alloc, text)?;
    store.add(name, &bytes)
}

/// Adds the files of a row, each behind a line `file NAME`, with a line feed behind each of its lines.
fn add_files(alloc: Global, store: &mut NotedStore, files: &str) -> Result<(), Memory> {
    let mut name = None;
    let mut text = String::new(alloc);
    for line in files.lines() {
        if let Some(next) = line.strip_prefix("file ") {
            add_file(alloc, store, name, text.as_str())?;
            name = Some(next);
            text.clear();
        } else {
            text.push_str(line)?;
            text.push('\n')?;
        }
    }
    add_file(alloc, store, name, text.as_str())
}

/// Runs a row: the words in its first line, and behind them, where a call is to fail, a line that names it, as `bad_read=2`; and then the
/// files.
fn ran<R: Threads + Sync>(rt: &R, alloc: Global, given: &str) -> Result<Ran, Memory> {
    let (words, rest) = given.split_once('\n').unwrap_or((given, ""));
    let (bad, files) = if rest.starts_with("bad_") {
        rest.split_once('\n').unwrap_or((rest, ""))
    } else {
        ("", rest)
    };
    let bad_reads = bad_calls(alloc, bad, "bad_read=")?;
    let bad_changes = bad_calls(alloc, bad, "bad_change=")?;
    let mut store = NotedStore::new(alloc, bad_reads, bad_changes);
    add_files(alloc, &mut store, files)?;
    let bad_outputs = bad_calls(alloc, bad, "bad_output=")?;
    let bad_errors = bad_calls(alloc, bad, "bad_error=")?;
    ran_on(rt, alloc, words, store, bad_outputs, bad_errors)
}

/// The status of a run, the changes of files, and what stands on the streams.
pub fn answer<R: Threads + Sync>(rt: &R, alloc: Global, given: &str) -> Result<String, Memory> {
    let ran = ran(rt, alloc, given)?;
    spelled(alloc, &ran)
}

/// The files that a run writes, in the order of writing, each behind a line `file NAME`.
pub fn texts<R: Threads + Sync>(rt: &R, alloc: Global, given: &str) -> Result<String, Memory> {
    let ran = ran(rt, alloc, given)?;
    let mut texts = String::new(alloc);
    for change in ran.store.changes() {
        let name = change.as_str().strip_prefix("wrote ").unwrap_or("");
        let bytes = ran.store.file(name).unwrap_or(&[]);
        let text = String::from_utf8_lossy(alloc, bytes)?;
        write!(&mut texts, "file {name}\n{text}")?;
    }
    match texts.strip_suffix('\n') {
        Some(front) => Ok(String::from_str(alloc, front)?),
        None => Ok(texts),
    }
}
