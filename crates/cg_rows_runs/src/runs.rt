//! Whole runs: the status, the changes of files, and what stands on the streams.

use crate::noted::NotedStore;
use crate::running::{ran_on, spelled};
use cg_base::{List, Memory};
use std::alloc::Global;
use std::thread::Threads;

/// The numbers of the calls of this kind that are to fail, counted from 1.
pub fn bad_calls(alloc: Global, file: &str, kind: &str) -> Result<List<u64>, Memory> {
    let mut calls = List::new(alloc);
    for word in file.split(' ') {
        if let Some(number) = word.strip_prefix(kind) {
            calls.push(number.parse().unwrap_or(0))?;
        }
    }
    Ok(calls)
}

/// A row gives the words in its first line, the name of the only file in its second, and then its text. Behind the name stands what
/// fails: `bad_read=1` the first read, `bad_change=1` the first write of a file, and `bad_output=1` the first text for the output.
pub fn answer<R: Threads + Sync>(rt: &R, alloc: Global, given: &str) -> Result<String, Memory> {
    let (words, rest) = given.split_once('\n').unwrap_or((given, ""));
    let (file, text) = rest.split_once('\n').unwrap_or((rest, ""));
    let bad_reads = bad_calls(alloc, file, "bad_read=")?;
    let bad_changes = bad_calls(alloc, file, "bad_change=")?;
    let mut store = NotedStore::new(alloc, bad_reads, bad_changes);
    let name = file.split(' ').next().unwrap_or("");
    store.add(name, text.as_bytes())?;
    let bad_outputs = bad_calls(alloc, file, "bad_output=")?;
    let ran = ran_on(rt, alloc, words, store, bad_outputs, List::new(alloc))?;
    spelled(alloc, &ran)
}
